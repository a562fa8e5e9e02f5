// The stale keys of a baseline whose keys never fall, as in a file that update wrote: those of entries that no function of the tree has, each once.
// They stand there in the order in which they are listed, so one pass measures them, and one writes them.
#![tactic(auto)]

ghost use Rattle.std.specs.Prelude.{◌≡◌, ◌<◌, true, length, IfSome};
ghost use Rattle.text_rules.specs.Search.{part};
ghost use Rattle.text_rules.specs.Utf8.{is_utf8};
ghost use Rattle.prefix.specs.Common.{common};
ghost use Rattle.baseline.specs.Ordered.{Unfalling, keys_in};
ghost use Rattle.listing.specs.Writes.{Room, Writes};
ghost use Rattle.key_lines.specs.Next.{Behind, ReadOn};
ghost use Rattle.listed_keys.specs.KeyLines.{Sizes, key_lines};
ghost use Rattle.in_order.specs.StaleKeys.{stale_in};
ghost use Rattle.in_order.specs.Known.{order_by};

use baseline::{Baseline, Bounds};
use functions::Functions;
use key_lines::Key;
use listing::{Size, Writer};

mod stale;
mod walk;

pub use stale::{KeyOrder, Stale};
use walk::Walk;

// Whether a line goes on behind a key where the two differ, or where the key ends.
fn is_behind(lines: &[u8], key: &[u8], from: usize, shared: usize) -> bool
    requires { (from < length lines.now) × (shared ≡ common key.now (part from (length lines.now) lines.now)) }
    ensures { result ≡ true → Behind lines.now key.now from shared }
{
    if lines.len() - from <= shared {
        return false;
    }
    if key.len() <= shared {
        return lines[from + shared] != b'\t';
    }
    key[shared] < lines[from + shared]
}

// The line at a place, where it and a key are plain, and it has the path of the key and a key behind that one.
fn next_line(lines: &[u8], key: Key, from: usize) -> Option<Bounds>
    ensures { ReadOn lines.now key.entry from result }
{
    if !key.plain {
        return None;
    }
    if lines.len() <= from {
        return None;
    }
    let shared = prefix::common(key.bytes, &lines[from..]);
    if shared <= key.path {
        return None;
    }
    if !is_behind(lines, key.bytes, from, shared) {
        return None;
    }
    baseline::plain_rest(lines, from, from + key.path, from + shared)
}

// The order of keys of which none falls.
fn order_of(whole: bool) -> KeyOrder
    ensures { result ≡ order_by whole }
{
    if whole {
        KeyOrder::AllStale
    } else {
        KeyOrder::Rising
    }
}

// The stale keys where no key falls. The first one that does ends the pass.
pub fn measure<'a>(functions: Functions<'a>, baseline: Baseline<'a>) -> Option<Stale<'a>>
    requires { is_utf8 baseline.lines.now ≡ true }
    ensures { IfSome result (λ g. (g.functions ≡ functions.entry)
        × (g.baseline ≡ baseline.entry)
        × Unfalling (keys_in g.baseline.lines.now)
        × Sizes g.size.count g.size.bytes (stale_in g.functions.tree.now g.baseline.lines.now)) }
{
    let mut walk = Walk::new(functions, baseline.lines);
    let mut whole = true;
    let mut size = Size::default();
    // Kept: behind each step the walk itself passes more lines, so no `for` can hold it.
    while let Some(step) = walk.next() {
        if step.found.falls() {
            return None;
        }
        whole = whole && step.stays_whole(baseline.lines);
        size = size.plus(step.size()).plus(walk.run());
    }
    Some(Stale {
        functions,
        baseline,
        order: order_of(whole),
        size,
    })
}

// The lines of the stale keys, where no key falls: each line is read and its key looked up.
pub fn write_each(fs: Functions, lines: &[u8], w: &mut Writer<'_>)
    requires { Unfalling (keys_in lines.now) × Room (key_lines (stale_in fs.tree.now lines.now)) w.old }
    ensures { Writes (key_lines (stale_in fs.entry.tree.now lines.now)) w.old w.new }
{
    for step in Walk::new(fs, lines) {
        if let Some(key) = step.added {
            listed_keys::write_key(w, key);
        }
    }
}
