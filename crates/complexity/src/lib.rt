// The calls for hosts, on byte slices, which the crate complexity_c exports to C. Each returns the call's number: 0 on success, or what was refused.
// On success the counts are put into lent bytes, four for each, the lowest first; a refusal leaves them as they were.
// Kept: the answers are numbers, not results, since C reads them.
// Kept: a host lends each buffer on its own, as C passes it, so that no struct holds the buffers of a call.
// Kept: four calls ask for room, call, and tell the counts. Two forms were tried: a function over the call as a closure, whose bound names the number
// of counts, which Rattle does not cover; and a `map` of the answer to an array, of which nothing is known where `map` returns.
#![tactic(auto)]

ghost use Rattle.std.specs.Prelude.{◌≡◌, [], ◌++◌, map, ◌*◌, ◌≤◌, length, drop};
ghost use Rattle.text_rules.specs.Bytes.{◌or_else◌, joined};
ghost use Rattle.text_rules.specs.U32.{u32_bytes};
ghost use Rattle.gate_rules.specs.Exports.{exported_blank, exported_check, exported_report, exported_scan, exported_update};
ghost use Rattle.gate_rules.specs.Functions.{gate_limits};
ghost use Rattle.gate_rules.specs.Gate.{gate};
ghost use Rattle.gate_rules.specs.Tree.{tree_refusal};
ghost use Rattle.complexity.specs.Exported.{Ends, EndsBlank};

use answers::Refusal;

// The bytes of the counts: functions; bytes written, functions, regressions and stale entries; bytes written, functions and functions recorded; bytes
// written and functions.
const SCAN_COUNTS: usize = 4;

const CHECK_COUNTS: usize = 16;

const UPDATE_COUNTS: usize = 12;

const REPORT_COUNTS: usize = 8;

// The number of a call that lends too few bytes for the counts: 5, at 5's place in the order.
fn too_few(tree: &[u8]) -> u32
    ensures { result ≡ (tree_refusal tree.now or_else 5) }
{
    u32::from(tree::refusal_or(tree, Refusal::Work))
}

// The number of success. The counts are put, four bytes for each, at the start of the lent bytes.
fn told<const N: usize>(values: [u32; N], counts: &mut [u8]) -> u32
    requires { 4 * N ≤ length counts.old }
    ensures number { result ≡ 0 }
    ensures counts { counts.new ≡ joined (map u32_bytes values.entry) ++ drop (4 * N) counts.old }
{
    words::put_u32s(counts, 0, values);
    0
}

// A text, blanked.
pub fn complexity_blank(text: &[u8], output: &mut [u8]) -> u32
    ensures { EndsBlank result (exported_blank text.now output.old) output.new }
{
    answers::number(blanking::blank(text, output))
}

// The records of a tree. Counts: functions.
pub fn complexity_scan(tree: &[u8], work: &mut [u8], records: &mut [u8], counts: &mut [u8]) -> u32
    ensures { Ends result (exported_scan gate tree.now work.old records.old counts.old)
        work.new records.new [] counts.new }
{
    if counts.len() < SCAN_COUNTS {
        return too_few(tree);
    }
    match gate_scan::scan(tree, work, records) {
        Ok(functions) => told([functions], counts),
        Err(refusal) => u32::from(refusal),
    }
}

// What got worse against a baseline. Counts: bytes written, functions, regressions, stale entries.
pub fn complexity_check(
    tree: &[u8],
    baseline: &[u8],
    work: &mut [u8],
    records: &mut [u8],
    output: &mut [u8],
    counts: &mut [u8],
) -> u32
    ensures { Ends result (exported_check gate gate_limits tree.now baseline.now work.old records.old output.old counts.old)
        work.new records.new output.new counts.new }
{
    if counts.len() < CHECK_COUNTS {
        return too_few(tree);
    }
    match gate_check::check(tree, baseline, work, records, output) {
        Ok(c) => told([c.written, c.functions, c.regressed, c.stale], counts),
        Err(refusal) => u32::from(refusal),
    }
}

// The baseline of a tree. Counts: bytes written, functions, functions recorded.
pub fn complexity_update(
    tree: &[u8],
    work: &mut [u8],
    records: &mut [u8],
    output: &mut [u8],
    counts: &mut [u8],
) -> u32
    ensures { Ends result (exported_update gate gate_limits tree.now work.old records.old output.old counts.old)
        work.new records.new output.new counts.new }
{
    if counts.len() < UPDATE_COUNTS {
        return too_few(tree);
    }
    match gate_update::update(tree, work, records, output) {
        Ok(c) => told([c.written, c.functions, c.recorded], counts),
        Err(refusal) => u32::from(refusal),
    }
}

// The report of a tree, with a table of sums of its own. Counts: bytes written, functions.
pub fn complexity_report(
    tree: &[u8],
    work: &mut [u8],
    records: &mut [u8],
    output: &mut [u8],
    counts: &mut [u8],
) -> u32
    ensures { Ends result (exported_report gate gate_limits tree.now work.old records.old output.old counts.old)
        work.new records.new output.new counts.new }
{
    if counts.len() < REPORT_COUNTS {
        return too_few(tree);
    }
    match gate_report::report_alone(tree, work, records, output) {
        Ok(c) => told([c.written, c.functions], counts),
        Err(refusal) => u32::from(refusal),
    }
}
