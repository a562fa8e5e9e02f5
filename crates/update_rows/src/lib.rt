// The baseline that update writes: its header, and the rows of the functions over the limits. The rows are measured first, so that a caller knows
// how many bytes they take before any of them is written.
#![tactic(auto)]

ghost use Rattle.std.specs.Prelude.{◌≡◌, ◌≤◌, length};
ghost use Rattle.text_rules.specs.Bytes.{overwritten};
ghost use Rattle.gate_rules.specs.Gate.{gate};
ghost use Rattle.gate_rules.specs.Scan.{functions_of};
ghost use Rattle.gate_rules.specs.Update.{baseline_text, header, recorded, rows};
ghost use Rattle.functions.specs.Short.{Short};
ghost use Rattle.functions.specs.Shown.{limits_of, shown};
ghost use Rattle.listing.specs.Writes.{Room, Writes};
ghost use Rattle.update_rows.specs.Rows.{keyed, lined, lined_length, measured};

use functions::{Function, Functions, Limits};
use listing::{Size, Writer};
use ranking::{ByKey, Ranking};

// The eight header lines.
#[tactic(auto, unfolding(gate_rules::specs::Update::header))]
fn write_header(w: &mut Writer<'_>)
    requires { Room header w.old }
    ensures { Writes header w.old w.new }
{
    w.text(
        b"# Accepted complexity, written by `cargo run --bin complexity -- --update`.\n\
        #\n\
        # Only functions over the thresholds are listed. `--check` fails when one of\n\
        # these gets worse, or when a function not listed here goes over. Most of\n\
        # these are one Rust function per Fortran subroutine, which is deliberate:\n\
        # see the module documentation in src/bin/complexity.rs.\n\
        #\n\
        # file\tfunction\tcyclomatic\tlines\n",
    );
}

// Path and name of a row, each with the tab behind it.
fn write_key(w: &mut Writer<'_>, path: &[u8], name: &[u8])
    requires { Room (keyed path.now name.now) w.old }
    ensures { Writes (keyed path.now name.now) w.old w.new }
{
    w.text(path);
    w.text(b"\t");
    w.text(name);
    w.text(b"\t");
}

// The measures of a row, with a tab between them and the LF behind.
fn write_measures(w: &mut Writer<'_>, cyclomatic: u32, lines: u32)
    requires { Room (measured cyclomatic lines) w.old }
    ensures { Writes (measured cyclomatic lines) w.old w.new }
{
    w.number(cyclomatic as u64);
    w.text(b"\t");
    w.number(lines as u64);
    w.text(b"\n");
}

// A function's row with its LF.
fn write_row(w: &mut Writer<'_>, f: Function)
    requires { Room (lined (shown f)) w.old }
    ensures { Writes (lined (shown f.entry)) w.old w.new }
{
    write_key(w, f.path, f.name);
    write_measures(w, f.cyclomatic, f.lines);
}

// The size of a function's row with its LF.
fn row_size(f: Function) -> Size
    requires { Short (shown f) }
    ensures { (result.count ≡ 1) × (result.bytes ≡ lined_length (shown f.entry)) }
{
    let key = f.path.len() + 1 + f.name.len() + 1;
    let measures = listing::digits(f.cyclomatic as u64) + 1 + listing::digits(f.lines as u64) + 1;
    Size {
        count: 1,
        bytes: key + measures,
    }
}

// The size of all rows. It is the same in any order, so the functions are counted in scan order.
pub fn rows_size(functions: Functions, limits: Limits) -> Size
    ensures { (result.count ≡ length (recorded (limits_of limits) (functions_of gate functions.entry.tree.now)))
        × (result.bytes ≡ length (rows (recorded (limits_of limits) (functions_of gate functions.entry.tree.now))))
        × (result.count ≤ 8192)
        × (result.bytes ≤ 33554432) }
{
    let mut size = Size::default();
    for k in 0..functions.count {
        let f = functions.get(k);
        if !f.is_over(limits) {
            continue;
        }
        size = size.plus(row_size(f));
    }
    size
}

// All rows in their order.
fn write_rows(w: &mut Writer<'_>, functions: Functions, limits: Limits)
    requires { Room (rows (recorded (limits_of limits) (functions_of gate functions.tree.now))) w.old }
    ensures { Writes (rows (recorded (limits_of limits) (functions_of gate functions.entry.tree.now))) w.old w.new }
{
    for f in Ranking::new(ByKey, functions, limits) {
        write_row(w, f);
    }
}

// The header and the rows.
#[tactic(auto, unfolding(gate_rules::specs::Update::baseline_text), using(listing::specs::Writes::writes_then))]
fn write_baseline(w: &mut Writer<'_>, functions: Functions, limits: Limits)
    requires { Room (baseline_text (limits_of limits) (functions_of gate functions.tree.now)) w.old }
    ensures { Writes (baseline_text (limits_of limits) (functions_of gate functions.entry.tree.now)) w.old w.new }
{
    write_header(w);
    write_rows(w, functions, limits);
}

// The baseline, at the front of the output. It is no part of its caller, so that its nodes do not lie on the stack while a tree is scanned.
#[inline(never)]
pub fn put_baseline(functions: Functions, limits: Limits, out: &mut [u8]) -> usize
    requires { length (baseline_text (limits_of limits) (functions_of gate functions.tree.now)) ≤ length out.old }
    ensures { (result ≡ length (baseline_text (limits_of limits) (functions_of gate functions.entry.tree.now)))
        × (out.new ≡ overwritten (baseline_text (limits_of limits) (functions_of gate functions.entry.tree.now)) out.old) }
{
    let mut w = Writer { out, at: 0 };
    write_baseline(&mut w, functions, limits);
    w.at
}
