// The update: a tree is scanned, and the functions over the limits are written as the rows of a baseline.
// Kept: a host lends each buffer on its own, as C passes it, so that no struct holds the buffers of a call.
#![tactic(auto)]

ghost use Rattle.std.specs.Prelude.{◌≡◌};
ghost use Rattle.gate_rules.specs.Calls.{update_call};
ghost use Rattle.gate_rules.specs.Functions.{gate_limits};
ghost use Rattle.gate_rules.specs.Gate.{gate};
ghost use Rattle.functions.specs.Shown.{limits_of};
ghost use Rattle.gate_update.specs.Updates.{Updates, update_told};

use answers::Refusal;
use functions::{Functions, Limits};

// The bytes of the header.
const HEADER_LENGTH: usize = 396;

// What update answers: the bytes written, how many functions the tree has, and how many are recorded.
#[derive(Clone, Copy)]
pub struct UpdateCounts {
    pub written: u32,
    pub functions: u32,
    pub recorded: u32,
}

// Update by other limits. Its refusals are those of the scan, and 9, which is known before anything is written.
pub fn update_with(
    limits: Limits,
    tree: &[u8],
    work: &mut [u8],
    lent: &mut [u8],
    output: &mut [u8],
) -> Result<UpdateCounts, Refusal>
    ensures { Updates (update_told result) (update_call gate (limits_of limits) tree.now work.old lent.old output.old)
        work.new lent.new output.new }
{
    let count = gate_scan::scan(tree, work, lent)?;
    let functions = Functions {
        tree,
        records: lent,
        count: count as usize,
    };
    let size = update_rows::rows_size(functions, limits);
    if output.len() < HEADER_LENGTH + size.bytes {
        return Err(Refusal::Output);
    }
    let written = update_rows::put_baseline(functions, limits, output);
    Ok(UpdateCounts {
        written: written as u32,
        functions: count,
        recorded: size.count as u32,
    })
}

// The call update: the refusals 1 to 5, 8 and 9; the baseline of the functions over the gate's limits.
// Kept: hosts and programs call it by this name, and its contract is in the rules' words for them. With `update_with` alone each would bring the
// gate's limits, and prove that they are these.
pub fn update(
    tree: &[u8],
    work: &mut [u8],
    lent: &mut [u8],
    output: &mut [u8],
) -> Result<UpdateCounts, Refusal>
    ensures { Updates (update_told result) (update_call gate gate_limits tree.now work.old lent.old output.old)
        work.new lent.new output.new }
{
    update_with(functions::gate_limits(), tree, work, lent, output)
}
