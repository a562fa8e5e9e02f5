// Which regression lines a function has against what the baseline accepts of it, and how many bytes they take.
#![tactic(auto)]

ghost use Rattle.std.specs.Prelude.{◌≡◌, ◌≤◌, ltb, length};
ghost use Rattle.functions.specs.Short.{Short};
ghost use Rattle.functions.specs.Shown.{limits_of, shown};
ghost use Rattle.regression_sizes.specs.Lines.{LineMeasured, Measured, accepts, grown_of, line_with, new_of, start_length};

use baseline::Recorded;
use functions::{Function, Limits};
use listing::Size;

// The bytes of two spaces and path:line name.
fn start_length(f: Function) -> usize
    requires { Short (shown f) }
    ensures { (result ≡ start_length (shown f.entry)) × (result ≤ 33554500) }
{
    2 + listing::location_length(f.path, f.line, f.name)
}

// ---- a listed function

// Whether its cyclomatic number is higher than the accepted one.
pub fn more_branches(f: Function, m: Recorded) -> bool
    ensures { result ≡ ltb m.cyclomatic f.entry.cyclomatic }
{
    f.cyclomatic > m.cyclomatic
}

// Whether it has more lines than are accepted.
pub fn more_lines(f: Function, m: Recorded) -> bool
    ensures { result ≡ ltb m.lines f.entry.lines }
{
    f.lines as u64 > m.lines
}

// The size of a line with one pair of numbers, where there is one.
fn line_size(f: Function, there: bool, first: &[u8], m: u64, second: &[u8], n: u64) -> Size
    requires { Short (shown f) × (length first.now ≤ 1000) × (length second.now ≤ 1000) }
    ensures { LineMeasured result there (line_with (shown f.entry) first.now m second.now n) × (result.count ≤ 1) × (result.bytes ≤ 40000000) }
{
    if !there {
        return Size::default();
    }
    let digits = listing::digits(m) + listing::digits(n);
    Size {
        count: 1,
        bytes: start_length(f) + first.len() + second.len() + digits + 1,
    }
}

// The size of its lines: it may have one for its cyclomatic number and one for its lines.
fn grown_size(f: Function, m: Recorded) -> Size
    requires { Short (shown f) }
    ensures { Measured result (grown_of (shown f.entry) m) × (result.count ≤ 2) × (result.bytes ≤ 80000000) }
{
    let worse = more_branches(f, m);
    let branches = line_size(
        f,
        worse,
        b" cyclomatic ",
        f.cyclomatic as u64,
        b" was ",
        m.cyclomatic as u64,
    );
    let longer = more_lines(f, m);
    let lines = line_size(f, longer, b" is ", f.lines as u64, b" lines, was ", m.lines);
    branches.plus(lines)
}

// ---- an unlisted function that is over-limit

// The size of the line, where there is one.
fn new_size(f: Function, limits: Limits) -> Size
    requires { Short (shown f) }
    ensures { Measured result (new_of (limits_of limits) (shown f.entry)) × (result.count ≤ 1) × (result.bytes ≤ 40000000) }
{
    if f.is_over(limits) {
        let start = start_length(f);
        let first = listing::digits(f.cyclomatic as u64) + listing::digits(f.lines as u64);
        let second = listing::digits(f.nesting as u64) + listing::digits(f.params as u64);
        return Size {
            count: 1,
            bytes: start + 29 + 7 + first + 9 + 8 + second + 1,
        };
    }
    Size::default()
}

// ---- any function

// The size of a function's lines against what is accepted of it.
pub fn size_against(f: Function, accepted: Option<Recorded>, limits: Limits) -> Size
    requires { Short (shown f) }
    ensures { Measured result (accepts (limits_of limits) (shown f.entry) accepted) × (result.count ≤ 2) × (result.bytes ≤ 80000000) }
{
    match accepted {
        Some(m) => grown_size(f, m),
        None => new_size(f, limits),
    }
}
