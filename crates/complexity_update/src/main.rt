// Writes the baseline of the tree file on standard input, of at most 65,536 bytes, and prints how many functions it records. A refusal is its number
// and a newline, and nothing is written. One byte more than that is read, so that a longer tree shows.
#![tactic(auto)]

ghost use Rattle.std.specs.Prelude.{◌≤◌, ◌≡◌, length, take};
ghost use Rattle.io.specs.Counts.{IsPrefixLen};
ghost use Rattle.gate_rules.specs.Programs.{update_file, update_program};
ghost use Rattle.gate_rules.specs.Programs.{lent as zeros};
ghost use Rattle.answers.specs.Numbers.{number_of};
ghost use Rattle.programs.specs.Lines.{Starts};
ghost use Rattle.complexity_update.specs.Answered.{FileLies, closing, file_of, refusal_line};

use answers::Refusal;
use listing::Writer;
use std::rt::Files;

// The bytes that a tree may have.
const MOST: usize = 65536;

// The bytes of the file, if one is written, and of the line that is printed.
#[derive(Clone, Copy)]
struct Outcome {
    file: Option<usize>,
    line: usize,
}

// The closing line.
fn put_closing(line: &mut [u8], recorded: u32) -> usize
    requires { 61 ≤ length line.old }
    ensures { Starts result line.new (closing recorded) }
{
    let mut w = Writer { out: line, at: 0 };
    w.text(b"tools/complexity-baseline.tsv: ");
    w.number(recorded as u64);
    w.text(b" functions recorded\n");
    w.at
}

// A refusal, with its line.
fn refused(line: &mut [u8], refusal: Refusal) -> Outcome
    requires { 61 ≤ length line.old }
    ensures file { result.file ≡ None }
    ensures line { Starts result.line line.new (refusal_line (number_of refusal)) }
{
    Outcome {
        file: None,
        line: programs::put_refusal(line, u32::from(refusal)),
    }
}

// What is written to the file, at the start of the output, and what is then printed, at the start of the line.
fn put_answer(
    tree: &[u8],
    work: &mut [u8],
    lent: &mut [u8],
    output: &mut [u8],
    line: &mut [u8],
) -> Outcome
    requires { (work.old ≡ zeros) × (lent.old ≡ zeros) × (output.old ≡ zeros) × (61 ≤ length line.old) }
    ensures { FileLies result.file output.new
        × (file_of result.file output.new ≡ update_file tree.now)
        × Starts result.line line.new (update_program tree.now) }
{
    if MOST < tree.len() {
        return refused(line, Refusal::Length);
    }
    match gate_update::update(tree, work, lent, output) {
        Ok(counts) => Outcome {
            file: Some(counts.written as usize),
            line: put_closing(line, counts.recorded),
        },
        Err(refusal) => refused(line, refusal),
    }
}

// Writes the file, if there is one, and prints once it stands.
fn answer(rt: &(impl Files + Print + Eprint), tree: &[u8]) {
    let mut work = [0u8; 65536];
    let mut lent = [0u8; 65536];
    let mut output = [0u8; 65536];
    let mut line = [0u8; 61];
    let r = put_answer(tree, &mut work, &mut lent, &mut output, &mut line);
    let end = r.line;
    if let Some(file) = r.file {
        if programs::write_baseline(rt, &output[..file]).is_none() {
            return;
        }
    }
    programs::print(rt, &line[..end]);
}

fn main(rt: HostRuntime) {
    let mut tree = [0u8; 65537];
    let Some(end) = programs::read_tree(&rt, &mut tree) else {
        return;
    };
    answer(&rt, &tree[..end]);
}
