// The regression lines of check: each function of a scanned tree against what the baseline accepts of it. The lines are measured first, so that a
// caller knows how many bytes they take before any of them is written.
#![tactic(auto)]

ghost use Rattle.std.specs.Prelude.{◌≡◌, ◌≤◌, length};
ghost use Rattle.gate_rules.specs.Check.{listed};
ghost use Rattle.functions.specs.Shown.{limits_of, shown};
ghost use Rattle.listing.specs.Writes.{Room, Writes};
ghost use Rattle.regression_sizes.specs.Lines.{accepts, branches_of, grown_of, lines_of, line_with, new_of, pair, started};
ghost use Rattle.regressions.specs.Worse.{worse_in};

use baseline::Recorded;
use functions::{Function, Limits};
use listing::{Size, Writer};

mod entries;

pub use entries::Entries;

// ---- the parts of a line

// Two spaces and path:line name.
fn write_start(w: &mut Writer<'_>, f: Function)
    requires { Room (started (shown f)) w.old }
    ensures { Writes (started (shown f.entry)) w.old w.new }
{
    w.text(b"  ");
    w.location(f.path, f.line, f.name);
}

// Two numbers, each behind the words that say what it is.
fn write_pair(w: &mut Writer<'_>, first: &[u8], m: u64, second: &[u8], n: u64)
    requires { Room (pair first.now m second.now n) w.old }
    ensures { Writes (pair first.now m second.now n) w.old w.new }
{
    w.text(first);
    w.number(m);
    w.text(second);
    w.number(n);
}

// A line with one pair of numbers.
fn write_line(w: &mut Writer<'_>, f: Function, first: &[u8], m: u64, second: &[u8], n: u64)
    requires { Room (line_with (shown f) first.now m second.now n) w.old }
    ensures { Writes (line_with (shown f.entry) first.now m second.now n) w.old w.new }
{
    write_start(w, f);
    write_pair(w, first, m, second, n);
    w.text(b"\n");
}

// ---- the lines of one function

// That of a listed function with a higher cyclomatic number.
fn write_branches(w: &mut Writer<'_>, f: Function, m: Recorded)
    requires { Room (listed (branches_of (shown f) m)) w.old }
    ensures { Writes (listed (branches_of (shown f.entry) m)) w.old w.new }
{
    if regression_sizes::more_branches(f, m) {
        write_line(
            w,
            f,
            b" cyclomatic ",
            f.cyclomatic as u64,
            b" was ",
            m.cyclomatic as u64,
        );
    }
}

// That of a listed function with more lines.
fn write_lines(w: &mut Writer<'_>, f: Function, m: Recorded)
    requires { Room (listed (lines_of (shown f) m)) w.old }
    ensures { Writes (listed (lines_of (shown f.entry) m)) w.old w.new }
{
    if regression_sizes::more_lines(f, m) {
        write_line(w, f, b" is ", f.lines as u64, b" lines, was ", m.lines);
    }
}

// Those of a listed function.
fn write_grown(w: &mut Writer<'_>, f: Function, m: Recorded)
    requires { Room (listed (grown_of (shown f) m)) w.old }
    ensures { Writes (listed (grown_of (shown f.entry) m)) w.old w.new }
{
    write_branches(w, f, m);
    write_lines(w, f, m);
}

// That of an unlisted function that is over-limit.
fn write_new(w: &mut Writer<'_>, f: Function, limits: Limits)
    requires { Room (listed (new_of (limits_of limits) (shown f))) w.old }
    ensures { Writes (listed (new_of (limits_of limits) (shown f.entry))) w.old w.new }
{
    if f.is_over(limits) {
        write_start(w, f);
        write_pair(
            w,
            b" is new and over: cyclomatic ",
            f.cyclomatic as u64,
            b" lines ",
            f.lines as u64,
        );
        write_pair(
            w,
            b" nesting ",
            f.nesting as u64,
            b" params ",
            f.params as u64,
        );
        w.text(b"\n");
    }
}

// A function's lines against what is accepted of it.
fn write_against(w: &mut Writer<'_>, f: Function, accepted: Option<Recorded>, limits: Limits)
    requires { Room (listed (accepts (limits_of limits) (shown f) accepted)) w.old }
    ensures { Writes (listed (accepts (limits_of limits) (shown f.entry) accepted)) w.old w.new }
{
    match accepted {
        Some(m) => write_grown(w, f, m),
        None => write_new(w, f, limits),
    }
}

// ---- all functions

// How many regression lines there are, and the bytes of all of them as they are listed.
pub fn measure(entries: Entries, limits: Limits) -> Size
    ensures count { result.count ≡ length (worse_in (limits_of limits) entries.entry.functions.tree.now entries.entry.lines.now) }
    ensures bytes { result.bytes ≡ length (listed (worse_in (limits_of limits) entries.entry.functions.tree.now entries.entry.lines.now)) }
    ensures few { result.count ≤ 16384 }
    ensures short { result.bytes ≤ 655360000000 }
{
    let mut all = Size::default();
    for k in 0..entries.functions.count {
        let f = entries.functions.get(k);
        let accepted = entries.accepted(k, f);
        all = all.plus(regression_sizes::size_against(f, accepted, limits));
    }
    all
}

// The regression lines, in scan order, each with two spaces in front and an LF behind.
pub fn write_all(w: &mut Writer<'_>, entries: Entries, limits: Limits)
    requires { Room (listed (worse_in (limits_of limits) entries.functions.tree.now entries.lines.now)) w.old }
    ensures { Writes (listed (worse_in (limits_of limits) entries.entry.functions.tree.now entries.entry.lines.now)) w.old w.new }
{
    for k in 0..entries.functions.count {
        let f = entries.functions.get(k);
        let accepted = entries.accepted(k, f);
        write_against(w, f, accepted, limits);
    }
}
