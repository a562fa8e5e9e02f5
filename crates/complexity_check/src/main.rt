// The check of the tree file on standard input against the baseline file, each of at most 65,536 bytes. A refusal is its number and a newline.
// One byte more than that is read, so that a longer file shows.
#![tactic(auto)]

ghost use Rattle.std.specs.Prelude.{◌≡◌};
ghost use Rattle.answers.specs.Numbers.{refusal_number};
ghost use Rattle.programs.specs.Lines.{Starts};
ghost use Rattle.gate_rules.specs.Programs.{check_program};
ghost use Rattle.gate_rules.specs.Programs.{lent as zeros};
ghost use Rattle.complexity_check.specs.Printed.{length_refusal};

use answers::Refusal;

// The bytes that a file may have.
const MOST: usize = 65536;

// Whether both files are short enough. The tree's own refusals come before that of a baseline that is too long.
#[tactic(auto, unfolding(crate::specs::Printed::length_refusal))]
fn short_enough(tree: &[u8], baseline: &[u8]) -> Result<(), Refusal>
    ensures { refusal_number result ≡ length_refusal tree.now baseline.now }
{
    if MOST < tree.len() {
        return Err(Refusal::Length);
    }
    if MOST < baseline.len() {
        return Err(tree::refusal_or(tree, Refusal::Baseline));
    }
    Ok(())
}

// What is printed, at the start of the output.
// Kept: the report's program ends alike, with counts of another type. A function for both would be handed the bytes that each takes out of its own.
fn put_answer(
    tree: &[u8],
    baseline: &[u8],
    work: &mut [u8],
    lent: &mut [u8],
    output: &mut [u8],
) -> usize
    requires { (work.old ≡ zeros) × (lent.old ≡ zeros) × (output.old ≡ zeros) }
    ensures { Starts result output.new (check_program tree.now baseline.now) }
{
    if let Err(refusal) = short_enough(tree, baseline) {
        return programs::put_refusal(output, u32::from(refusal));
    }
    match gate_check::check(tree, baseline, work, lent, output) {
        Ok(counts) => counts.written as usize,
        Err(refusal) => programs::put_refusal(output, u32::from(refusal)),
    }
}

fn main(rt: HostRuntime) {
    let mut tree_bytes = [0u8; 65537];
    let Some(tree_end) = programs::read_tree(&rt, &mut tree_bytes) else {
        return;
    };
    let mut baseline_bytes = [0u8; 65537];
    let Some(baseline_end) = programs::read_baseline(&rt, &mut baseline_bytes) else {
        return;
    };
    let tree = &tree_bytes[..tree_end];
    let baseline = &baseline_bytes[..baseline_end];
    programs::print_made(&rt, |work, lent, output| {
        put_answer(tree, baseline, work, lent, output)
    });
}
