// The calls for C hosts, of the crate complexity, under the names of include/complexity.h. C passes a slice as a pointer and a length.
// Kept: C links by these five names, each with parameters of its own, so that no generic function stands for them.
#![tactic(auto)]

ghost use Rattle.std.specs.Prelude.{[]};
ghost use Rattle.gate_rules.specs.Exports.{exported_blank, exported_check, exported_report, exported_scan, exported_update};
ghost use Rattle.gate_rules.specs.Functions.{gate_limits};
ghost use Rattle.gate_rules.specs.Gate.{gate};
ghost use Rattle.complexity.specs.Exported.{Ends, EndsBlank};

// A text, blanked.
#[unsafe(no_mangle)]
pub extern "C" fn complexity_blank(text: &[u8], output: &mut [u8]) -> u32
    ensures { EndsBlank result (exported_blank text.now output.old) output.new }
{
    complexity::complexity_blank(text, output)
}

// The records of a tree. Counts: functions.
#[unsafe(no_mangle)]
pub extern "C" fn complexity_scan(
    tree: &[u8],
    work: &mut [u8],
    records: &mut [u8],
    counts: &mut [u8],
) -> u32
    ensures { Ends result (exported_scan gate tree.now work.old records.old counts.old)
        work.new records.new [] counts.new }
{
    complexity::complexity_scan(tree, work, records, counts)
}

// What got worse against a baseline. Counts: bytes written, functions, regressions, stale entries.
#[unsafe(no_mangle)]
pub extern "C" fn complexity_check(
    tree: &[u8],
    baseline: &[u8],
    work: &mut [u8],
    records: &mut [u8],
    output: &mut [u8],
    counts: &mut [u8],
) -> u32
    ensures { Ends result (exported_check gate gate_limits tree.now baseline.now work.old records.old output.old counts.old)
        work.new records.new output.new counts.new }
{
    complexity::complexity_check(tree, baseline, work, records, output, counts)
}

// The baseline of a tree. Counts: bytes written, functions, functions recorded.
#[unsafe(no_mangle)]
pub extern "C" fn complexity_update(
    tree: &[u8],
    work: &mut [u8],
    records: &mut [u8],
    output: &mut [u8],
    counts: &mut [u8],
) -> u32
    ensures { Ends result (exported_update gate gate_limits tree.now work.old records.old output.old counts.old)
        work.new records.new output.new counts.new }
{
    complexity::complexity_update(tree, work, records, output, counts)
}

// The report of a tree, with a table of sums of its own. Counts: bytes written, functions.
#[unsafe(no_mangle)]
pub extern "C" fn complexity_report(
    tree: &[u8],
    work: &mut [u8],
    records: &mut [u8],
    output: &mut [u8],
    counts: &mut [u8],
) -> u32
    ensures { Ends result (exported_report gate gate_limits tree.now work.old records.old output.old counts.old)
        work.new records.new output.new counts.new }
{
    complexity::complexity_report(tree, work, records, output, counts)
}
