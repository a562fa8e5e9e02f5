// The report of the tree file on standard input, of at most 65,536 bytes. A refusal is its number and a newline. One byte more than that is read, so
// that a longer tree shows.
#![tactic(auto)]

ghost use Rattle.std.specs.Prelude.{◌≡◌};
ghost use Rattle.gate_rules.specs.Programs.{report_program};
ghost use Rattle.gate_rules.specs.Programs.{lent as zeros};
ghost use Rattle.programs.specs.Lines.{Starts};

use answers::Refusal;

// The bytes that a tree may have.
const MOST: usize = 65536;

// What is printed, at the start of the output.
// Kept: the check's program ends alike, with counts of another type. A function for both would be handed the bytes that each takes out of its own.
#[tactic(auto, using(crate::proofs::Refusals::refusals))]
fn put_answer(tree: &[u8], work: &mut [u8], lent: &mut [u8], output: &mut [u8]) -> usize
    requires { (work.old ≡ zeros) × (lent.old ≡ zeros) × (output.old ≡ zeros) }
    ensures { Starts result output.new (report_program tree.now) }
{
    if MOST < tree.len() {
        return programs::put_refusal(output, u32::from(Refusal::Length));
    }
    match gate_report::report_alone(tree, work, lent, output) {
        Ok(counts) => counts.written as usize,
        Err(refusal) => programs::put_refusal(output, u32::from(refusal)),
    }
}

fn main(rt: HostRuntime) {
    let mut bytes = [0u8; 65537];
    let Some(end) = programs::read_tree(&rt, &mut bytes) else {
        return;
    };
    let tree = &bytes[..end];
    programs::print_made(
        &rt,
        |work, lent, output| put_answer(tree, work, lent, output),
    );
}
