// The stale keys of a baseline whose keys stand in any order. A pass over its lines gathers the first 8,192 of them behind the last one taken, in
// byte order and each once; so many keys are taken in one pass. Keys stay where they are, in the lines.
#![tactic(auto)]

ghost use Rattle.std.specs.Prelude.{◌≡◌, true, false, map, ◌+◌, ◌≤◌, length, take};
ghost use Rattle.text_rules.specs.Bytes.{kept};
ghost use Rattle.text_rules.specs.Search.{part};
ghost use Rattle.text_rules.specs.Utf8.{is_utf8};
ghost use Rattle.gate_rules.specs.Functions.{key as fun_key};
ghost use Rattle.gate_rules.specs.Gate.{gate};
ghost use Rattle.gate_rules.specs.Scan.{functions_of};
ghost use Rattle.baseline.specs.Reads.{key_text};
ghost use Rattle.listing.specs.Writes.{Room, Writes};
ghost use Rattle.listed_keys.specs.KeyLines.{Sizes, key_lines};
ghost use Rattle.in_order.specs.StaleKeys.{behind, stale_in};
ghost use Rattle.batches.specs.Gathered.{one_more};
ghost use Rattle.sorted_keys.specs.Insert.{insert};

use baseline::{Baseline, Lines};
use functions::Functions;
use listing::{Size, Writer};
use sorted_keys::{Keys, MOST};

// ---- the keys of the lines

// Behind the last key that was taken. At first none was.
fn is_behind(last: Option<&[u8]>, bytes: &[u8]) -> bool
    ensures { result ≡ behind (key_text last.entry) bytes.now }
{
    last.is_none_or(|l| order::before(l, bytes))
}

// Whether a key has a place among the first 8,192: not all places are taken, or it stands before the last of them. Another one changes none of these.
fn has_place(keys: &Keys<'_>, bytes: &[u8]) -> bool
    ensures { result ≡ false → take 8192 (insert bytes.now keys.now.keys) ≡ keys.now.keys }
{
    if keys.len() < MOST {
        return true;
    }
    order::before(bytes, keys.key(MOST - 1))
}

// A key more, which begins at a place of the lines, where it may be taken. Whether a function has it is asked last, as that costs most.
fn add_key(fs: Functions, last: Option<&[u8]>, keys: &mut Keys<'_>, from: usize, key: &[u8])
    requires stands { part from (from + length key.now) keys.old.lines ≡ key.now }
    requires inside { from + length key.now ≤ length keys.old.lines }
    ensures lines { keys.new.lines ≡ keys.old.lines }
    ensures keys { take 8192 keys.new.keys
        ≡ take 8192 (one_more (map fun_key (functions_of gate fs.entry.tree.now)) (key_text last.entry) key.now keys.old.keys) }
{
    if !is_behind(last, key) {
        return;
    }
    if !has_place(keys, key) {
        return;
    }
    if live::is_live(fs, key) {
        return;
    }
    keys.insert(from, key);
}

// The first stale keys behind the last one taken, at most 8,192, in one pass over the lines.
fn gather<'a>(fs: Functions, baseline: Baseline<'a>, last: Option<&[u8]>) -> Keys<'a>
    ensures { take 8192 result.keys ≡ take 8192 (kept (behind (key_text last.entry)) (stale_in fs.entry.tree.now baseline.entry.lines.now)) }
{
    let mut keys = Keys::none(baseline);
    for line in Lines::of(baseline.lines) {
        let path = baseline::field_end(line.bytes, 0);
        if let Some(key) = baseline::key_with(line.bytes, path) {
            add_key(fs, last, &mut keys, line.from, key);
        }
    }
    keys
}

// ---- one batch after another

// The bytes of the lines of the keys.
fn batch_bytes(keys: &Keys<'_>) -> usize
    ensures { result ≡ length (key_lines keys.now.keys) }
{
    let mut bytes = 0;
    for i in 0..keys.len() {
        bytes += 3 + keys.key(i).len();
    }
    bytes
}

// Their lines.
fn write_batch(keys: &Keys<'_>, w: &mut Writer<'_>)
    requires { Room (key_lines keys.now.keys) w.old }
    ensures { Writes (key_lines keys.now.keys) w.old w.new }
{
    for i in 0..keys.len() {
        listed_keys::write_key(w, keys.key(i));
    }
}

// How many stale keys there are, and the bytes of their lines. A batch that leaves a place free is the last one.
// It is no part of its caller, as little as what writes the lines: so the keys of the two do not lie on the stack at once.
#[inline(never)]
pub fn measure(fs: Functions, baseline: Baseline) -> Size
    requires { is_utf8 baseline.lines.now ≡ true }
    ensures { Sizes result.count result.bytes (stale_in fs.entry.tree.now baseline.entry.lines.now) }
{
    let mut last = None;
    let mut size = Size::default();
    // Kept: only the last batch tells how many there are.
    loop {
        let keys = gather(fs, baseline, last);
        let count = keys.len();
        let bytes = batch_bytes(&keys);
        size = size.plus(Size { count, bytes });
        if count < MOST {
            return size;
        }
        last = Some(keys.key(MOST - 1));
    }
}

// The lines of the stale keys.
#[inline(never)]
pub fn write_all(fs: Functions, baseline: Baseline, w: &mut Writer<'_>)
    requires { Room (key_lines (stale_in fs.tree.now baseline.lines.now)) w.old }
    ensures { Writes (key_lines (stale_in fs.entry.tree.now baseline.entry.lines.now)) w.old w.new }
{
    let mut last = None;
    // Kept: only the last batch tells how many there are.
    loop {
        let keys = gather(fs, baseline, last);
        let count = keys.len();
        write_batch(&keys, w);
        if count < MOST {
            return;
        }
        last = Some(keys.key(MOST - 1));
    }
}
