// What report writes: its first lines, a row for a function, a row for a file. Each length is told beforehand.
#![tactic(auto)]

ghost use Rattle.std.specs.Prelude.{◌≡◌, ◌+◌, ◌≤◌, max, length};
ghost use Rattle.text_rules.specs.Decimal.{decimal};
ghost use Rattle.gate_rules.specs.Report.{report_row};
ghost use Rattle.functions.specs.Shown.{shown};
ghost use Rattle.listing.specs.Writes.{Room, Writes};
ghost use Rattle.report_rows.specs.Texts.{column, column_length, head, head_length, measured, measured_length, weight_length, weight_row};

use functions::Function;
use listing::Writer;

// A number, right-justified, and a space.
fn write_column(w: &mut Writer<'_>, width: usize, n: u32)
    requires { Room (column width n) w.old }
    ensures { Writes (column width n) w.old w.new }
{
    w.justified(width, n as u64);
    w.text(b" ");
}

// The four columns of a row.
fn write_measured(w: &mut Writer<'_>, f: Function)
    requires { Room (measured (shown f)) w.old }
    ensures { Writes (measured (shown f.entry)) w.old w.new }
{
    write_column(w, 5, f.cyclomatic);
    write_column(w, 5, f.lines);
    write_column(w, 4, f.nesting);
    w.justified(6, f.params as u64);
    w.text(b"  ");
}

// The bytes of a right-justified number.
fn column_length(width: usize, n: u32) -> usize
    requires { width ≤ 10 }
    ensures { (result ≡ max width (length (decimal n))) × (result ≤ 10) }
{
    listing::justified_length(width, n as u64)
}

// The bytes of the four columns.
fn measured_length(f: Function) -> usize
    ensures { (result ≡ measured_length (shown f.entry)) × (result ≤ 45) }
{
    let first = column_length(5, f.cyclomatic) + 1;
    let second = column_length(5, f.lines) + 1;
    let third = column_length(4, f.nesting) + 1;
    first + second + third + column_length(6, f.params) + 2
}

// The bytes of a function's row.
pub fn report_row_length(f: Function) -> usize
    requires { length f.path.now + length f.name.now ≤ 4294967296 }
    ensures { (result ≡ length (report_row (shown f.entry))) × (result ≤ 4294967400) }
{
    measured_length(f) + listing::location_length(f.path, f.line, f.name) + 1
}

// The row of a function.
pub fn write_report_row(w: &mut Writer<'_>, f: Function)
    requires { Room (report_row (shown f)) w.old }
    ensures { Writes (report_row (shown f.entry)) w.old w.new }
{
    write_measured(w, f);
    w.location(f.path, f.line, f.name);
    w.text(b"\n");
}

// The bytes of a file's row.
pub fn weight_row_length(sum: u32, path: &[u8]) -> usize
    requires { length path.now ≤ 4294967296 }
    ensures { (result ≡ weight_length sum path.now) × (result ≤ 4294967400) }
{
    column_length(6, sum) + 2 + path.len() + 1
}

// The row of a file: its sum and its path.
pub fn write_weight_row(w: &mut Writer<'_>, sum: u32, path: &[u8])
    requires { Room (weight_row sum path.now) w.old }
    ensures { Writes (weight_row sum path.now) w.old w.new }
{
    w.justified(6, sum as u64);
    w.text(b"  ");
    w.text(path);
    w.text(b"\n");
}

// The bytes of the first lines.
pub fn head_length(count: u32, total: u32, over: u32) -> usize
    requires { total ≤ 16777216 }
    ensures { (result ≡ head_length count total over) × (result ≤ 200) }
{
    listing::digits(count as u64)
        + mean::mean_length(total, count)
        + listing::digits(over as u64)
        + 91
}

// The first lines: how many functions there are, their mean, how many are over the limits, and the names of the columns.
pub fn write_head(w: &mut Writer<'_>, count: u32, total: u32, over: u32)
    requires { (total ≤ 16777216) × Room (head count total over) w.old }
    ensures { Writes (head count total over) w.old w.new }
{
    w.number(count as u64);
    w.text(b" functions in src/\nmean cyclomatic ");
    mean::write_mean(w, total, count);
    w.text(b", over the thresholds: ");
    w.number(over as u64);
    w.text(b"\n\ncyclo lines nest params  where\n");
}
