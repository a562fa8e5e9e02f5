// The report's functions: what is counted over all of them, and the rows of those over the limits, the worst first.
#![tactic(auto)]

ghost use Rattle.std.specs.Prelude.{◌≡◌, ◌+◌, ◌≤◌, ◌<◌, length};
ghost use Rattle.gate_rules.specs.Gate.{gate};
ghost use Rattle.gate_rules.specs.Report.{report_rows, reported};
ghost use Rattle.gate_rules.specs.Scan.{functions_of};
ghost use Rattle.functions.specs.Short.{Short};
ghost use Rattle.functions.specs.Shown.{limits_of, shown};
ghost use Rattle.listing.specs.Writes.{Room, Writes};
ghost use Rattle.report_functions.specs.Counting.{Counted, Told};

use functions::{Function, Functions, Limits};
use listing::Writer;
use ranking::{Ranking, Worst};

// What is counted over the functions: those over the limits, the bytes of their rows, and the cyclomatic numbers of all.
#[derive(Clone, Copy)]
pub struct Counts {
    pub over: u32,
    pub bytes: usize,
    pub branches: u32,
}

// The counts with one function more.
fn counted(limits: Limits, f: Function, c: Counts) -> Counts
    requires { Short (shown f)
        × (c.over < 8192)
        × (c.bytes ≤ 35184372088832)
        × (c.branches + f.cyclomatic ≤ 16777216) }
    ensures { Told (limits_of limits) (shown f.entry) c result × (result.bytes ≤ c.bytes + 4294967400) }
{
    let branches = c.branches + f.cyclomatic;
    if f.is_over(limits) {
        return Counts {
            over: c.over + 1,
            bytes: c.bytes + report_rows::report_row_length(f),
            branches,
        };
    }
    Counts { branches, ..c }
}

// The counts over all functions. In any order the rows have the same bytes together.
pub fn count(functions: Functions, limits: Limits) -> Counts
    ensures { Counted (limits_of limits) (functions_of gate functions.entry.tree.now) result }
{
    let mut c = Counts {
        over: 0,
        bytes: 0,
        branches: 0,
    };
    for k in 0..functions.count {
        c = counted(limits, functions.get(k), c);
    }
    c
}

// All rows in their order.
pub fn write_rows(w: &mut Writer<'_>, functions: Functions, limits: Limits)
    requires { Room (report_rows (reported (limits_of limits) (functions_of gate functions.tree.now))) w.old }
    ensures { Writes (report_rows (reported (limits_of limits) (functions_of gate functions.entry.tree.now))) w.old w.new }
{
    for f in Ranking::new(Worst, functions, limits) {
        report_rows::write_report_row(w, f);
    }
}
