// The report: how many functions a tree has, their mean, the rows of those over the limits, the ten heaviest files, and a table of sums.
// Kept: a host lends each buffer on its own, as C passes it, so that no struct holds the buffers of a call.
// Kept: hosts and programs call `report` and `report_alone` by these names, and their contracts are in the rules' words for them. With `report_with`
// and `report_alone_with` alone each would bring the gate's limits, and prove that they are these.
#![tactic(auto)]

ghost use Rattle.std.specs.Prelude.{◌≡◌, map, ◌+◌, ◌≤◌, length};
ghost use Rattle.gate_rules.specs.Functions.{gate_limits};
ghost use Rattle.gate_rules.specs.Gate.{gate};
ghost use Rattle.gate_rules.specs.Report.{weight_rows};
ghost use Rattle.gate_rules.specs.ReportCall.{report_call, report_of};
ghost use Rattle.gate_rules.specs.Scan.{functions_of};
ghost use Rattle.answers.specs.Numbers.{refusal_number};
ghost use Rattle.functions.specs.Shown.{limits_of};
ghost use Rattle.listing.specs.Writes.{Room, Writes};
ghost use Rattle.report_files.specs.Files.{heaviest_files};
ghost use Rattle.report_files.specs.Tops.{weights_in};
ghost use Rattle.report_functions.specs.Counting.{Counted};
ghost use Rattle.report_rows.specs.Texts.{head_length};
ghost use Rattle.gate_report.specs.Listed.{Listed, report_told};
ghost use Rattle.gate_report.specs.Reports.{Reports, ReportsAlone, any_table, early_number};
ghost use Rattle.sums.specs.Sums.{told};

use answers::Refusal;
use functions::{Functions, Limits};
use listing::Writer;
use report_files::Heaviest;
use report_functions::Counts;
use sums::{FileSum, Totals};

// The bytes of the line before the files.
const FILES_LINE: usize = 47;

// What report answers: the bytes written, and how many functions the tree has.
#[derive(Clone, Copy)]
pub struct ReportCounts {
    pub written: u32,
    pub functions: u32,
}

// The first of the refusals 1 to 6 that applies.
#[tactic(auto, unfolding(crate::specs::Reports::early_number))]
fn early(tree: &[u8], work: usize, entries: usize) -> Result<(), Refusal>
    ensures { refusal_number result ≡ early_number tree.now work entries }
{
    tree::accept(tree)?;
    if work < tree.len() {
        return Err(Refusal::Work);
    }
    if entries < layout::file_count(tree) {
        return Err(Refusal::Sums);
    }
    Ok(())
}

// The bytes of the report.
fn report_length(n: u32, counts: Counts, heaviest: &Heaviest<'_>) -> usize
    requires { (counts.branches ≤ 16777216) × (counts.bytes ≤ 70368744177664) }
    ensures { result ≡ head_length n counts.branches counts.over + counts.bytes + 47 + length (weight_rows (weights_in heaviest.now)) }
{
    let head = report_rows::head_length(n, counts.branches, counts.over);
    head + counts.bytes + FILES_LINE + heaviest.rows_length()
}

// The report: the first lines and the rows of the functions, and behind them the rows of the files.
fn write_report(
    w: &mut Writer<'_>,
    limits: Limits,
    functions: Functions,
    counts: Counts,
    heaviest: &Heaviest<'_>,
)
    requires { Counted (limits_of limits) (functions_of gate functions.tree.now) counts
        × (weights_in heaviest.now ≡ heaviest_files functions.tree.now)
        × Room (report_of gate (limits_of limits) functions.tree.now) w.old }
    ensures { Writes (report_of gate (limits_of limits) functions.entry.tree.now) w.old w.new }
{
    report_rows::write_head(w, functions.count as u32, counts.branches, counts.over);
    report_functions::write_rows(w, functions, limits);
    w.text(b"\nheaviest files by total cyclomatic complexity\n");
    heaviest.write_rows(w);
}

// The report of functions, with the sums of their files. Its length is known before anything is written. It is no part of its caller, so that what it
// keeps does not lie on the stack while a tree is scanned.
#[inline(never)]
fn listed(
    limits: Limits,
    functions: Functions,
    totals: &Totals<'_>,
    output: &mut [u8],
) -> Result<ReportCounts, Refusal>
    requires { totals.now.tree.now ≡ functions.tree.now }
    ensures { Listed (limits_of limits) functions.entry.tree.now output.old result output.new }
{
    let heaviest = Heaviest::new(totals);
    let counts = report_functions::count(functions, limits);
    let n = functions.count as u32;
    if output.len() < report_length(n, counts, &heaviest) {
        return Err(Refusal::Output);
    }
    let mut w = Writer { out: output, at: 0 };
    write_report(&mut w, limits, functions, counts, &heaviest);
    Ok(ReportCounts {
        written: w.at as u32,
        functions: n,
    })
}

// The report by other limits: the refusals 1 to 6, 8 and 9. The table is lent: one entry for each file is filled on success and with 9.
pub fn report_with(
    limits: Limits,
    tree: &[u8],
    work: &mut [u8],
    lent: &mut [u8],
    table: &mut [FileSum],
    output: &mut [u8],
) -> Result<ReportCounts, Refusal>
    ensures { Reports (report_told result) (report_call gate (limits_of limits) tree.now work.old lent.old (map told table.old) output.old)
        work.new lent.new table.new output.new }
{
    early(tree, work.len(), table.len())?;
    let count = gate_scan::scanned(tree, work, lent);
    if gate_scan::room(lent.len()) < count {
        return Err(Refusal::Functions);
    }
    let functions = Functions {
        tree,
        records: lent,
        count,
    };
    let totals = Totals::new(functions);
    totals.fill(table);
    listed(limits, functions, &totals, output)
}

// The call report: the refusals 1 to 6, 8 and 9; the report by the gate's limits, and the sums of the files.
pub fn report(
    tree: &[u8],
    work: &mut [u8],
    lent: &mut [u8],
    table: &mut [FileSum],
    output: &mut [u8],
) -> Result<ReportCounts, Refusal>
    ensures { Reports (report_told result) (report_call gate gate_limits tree.now work.old lent.old (map told table.old) output.old)
        work.new lent.new table.new output.new }
{
    report_with(functions::gate_limits(), tree, work, lent, table, output)
}

// The report by other limits, with a table of its own: whoever calls it holds no table.
pub fn report_alone_with(
    limits: Limits,
    tree: &[u8],
    work: &mut [u8],
    lent: &mut [u8],
    output: &mut [u8],
) -> Result<ReportCounts, Refusal>
    ensures { ReportsAlone (report_told result) (report_call gate (limits_of limits) tree.now work.old lent.old (any_table 1024) output.old)
        work.new lent.new output.new }
{
    let mut table = [FileSum { file: 0, sum: 0 }; 1024];
    report_with(limits, tree, work, lent, &mut table, output)
}

// The report with a table of its own.
pub fn report_alone(
    tree: &[u8],
    work: &mut [u8],
    lent: &mut [u8],
    output: &mut [u8],
) -> Result<ReportCounts, Refusal>
    ensures { ReportsAlone (report_told result) (report_call gate gate_limits tree.now work.old lent.old (any_table 1024) output.old)
        work.new lent.new output.new }
{
    report_alone_with(functions::gate_limits(), tree, work, lent, output)
}
