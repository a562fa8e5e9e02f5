// For each function of a scanned tree the line of the baseline that lists it, found in one pass over the lines, whatever their order. A place is 0
// where no line lists the function, and else one more than where the line begins.
// Kept: an option for each of 8,192 functions would take twice the room on the stack.
#![tactic(auto)]

ghost use Rattle.std.specs.Prelude.{◌≡◌, ℕ, ◌≤◌, ◌<◌, length, get_or};
ghost use Rattle.std.proofs.Math.Option.{some};
ghost use Rattle.gate_rules.specs.Gate.{gate};
ghost use Rattle.gate_rules.specs.Scan.{functions_of};
ghost use Rattle.baseline.specs.Reads.{accepted_by};
ghost use Rattle.places.specs.Places.{Filled, Marks, placed};

use baseline::{Baseline, Lines, Recorded};
use functions::Functions;

// The functions with the key get the place, the others keep theirs. Only those that may have the key are asked.
fn mark(fs: Functions, bytes: &[u8], place: u32, places: &mut [u32; 8192])
    ensures { Marks (some bytes.now) place (functions_of gate fs.entry.tree.now) places.old places.new }
{
    let numbers = live::range(fs, bytes);
    for k in numbers.from..numbers.to {
        if live::has_key(fs.get(k), bytes) {
            places[k] = place;
        }
    }
}

// The place of each function. Of lines with equal keys the last one stays.
pub fn fill(fs: Functions, baseline: Baseline, places: &mut [u32; 8192])
    requires { (k : ℕ) → k < fs.count → get_or places.old k 0 ≡ 0 }
    ensures { Filled baseline.entry.lines.now (functions_of gate fs.entry.tree.now) places.new }
{
    for line in Lines::of(baseline.lines) {
        if let Some(key) = baseline::key(line.bytes) {
            mark(fs, key, line.from as u32 + 1, places);
        }
    }
}

// What the line at a place accepts.
pub fn accepted_at(lines: &[u8], place: u32) -> Option<Recorded>
    requires { place ≤ length lines.now }
    ensures { result ≡ accepted_by (placed lines.now place) }
{
    let from = (place as usize).checked_sub(1)?;
    let line = baseline::line_at(lines, from);
    Some(baseline::entry(line.bytes)?.into())
}
