// The look-up of a function's key in a baseline whose keys never fall: by halves, and then line by line. Nothing is copied.
#![tactic(auto)]

ghost use Rattle.std.specs.Prelude.{◌≡◌, false, ◌≤◌, ◌<◌, length, get_or, IfSome};
ghost use Rattle.std.proofs.Math.Option.{none, some};
ghost use Rattle.text_rules.specs.Bytes.{before};
ghost use Rattle.text_rules.specs.Classes.{lf};
ghost use Rattle.gate_rules.specs.Baseline.{entries_of_lines, entry_of, lookup};
ghost use Rattle.lookup.specs.Halves.{Below, Between, Leads, LeadsBelow, beyond};
ghost use Rattle.baseline.specs.Ordered.{Unfalling, keys_in};
ghost use Rattle.baseline.specs.Reads.{accepted_by, hit, key_bytes, key_of_entry};

use baseline::{FunctionKey, Lines, Recorded};

const TAB: u8 = b'\t';

const LF: u8 = b'\n';

// ---- a line

// Whether a line begins with the key sought and goes on. No other has an entry with that key, so most lines need not be read.
fn begins_with(line: &[u8], sought: FunctionKey) -> bool
    ensures { result ≡ false → hit (key_bytes sought.entry) (entry_of line.now) ≡ none }
{
    let path = sought.path.len();
    let name = sought.name.len();
    if line.len() <= path {
        return false;
    }
    if line.len() - path - 1 <= name {
        return false;
    }
    let end = path + 1 + name;
    sought.is(&line[..end])
}

// What a line accepts of the function sought.
fn in_line(line: &[u8], sought: FunctionKey) -> Option<Recorded>
    ensures { result ≡ accepted_by (hit (key_bytes sought.entry) (entry_of line.now)) }
{
    if !begins_with(line, sought) {
        return None;
    }
    let e = baseline::entry(line)?;
    if !sought.is(&line[..e.name_end]) {
        return None;
    }
    Some(e.into())
}

// ---- by halves

// Whether the bytes stand before those of the key sought. The first of its path, tab and name that differs decides.
fn key_before(key: &[u8], sought: FunctionKey) -> bool
    ensures { result ≡ before key.now (key_bytes sought.entry) }
{
    let n = sought.path.len();
    if key.len() <= n {
        return !order::before(sought.path, key);
    }
    if !order::same_bytes(&key[..n], sought.path) {
        return order::before(&key[..n], sought.path);
    }
    if key[n] != TAB {
        return key[n] < TAB;
    }
    order::before(&key[n + 1..], sought.name)
}

// Whether the bytes stand behind those of the key sought: they are not the same, and do not stand before them.
fn key_behind(key: &[u8], sought: FunctionKey) -> bool
    ensures { result ≡ before (key_bytes sought.entry) key.now }
{
    if sought.is(key) {
        return false;
    }
    !key_before(key, sought)
}

// Whether a line has a key, and it stands behind the one sought.
fn is_beyond(line: &[u8], sought: FunctionKey) -> bool
    ensures { result ≡ beyond (key_of_entry (entry_of line.now)) (key_bytes sought.entry) }
{
    // Kept: tried `is_some_and` with a closure that holds `sought`; the proof didn't close.
    match baseline::key(line) {
        Some(key) => key_behind(key, sought),
        None => false,
    }
}

// The last LF.
fn last_lf(s: &[u8]) -> Option<usize>
    ensures { IfSome result (λ i. (i < length s.now) × (get_or s.now i 0 ≡ lf)) }
{
    s.iter().rposition(|b| *b == LF)
}

// Where the line begins that holds a place, or the least place.
fn line_start(s: &[u8], least: usize, at: usize) -> usize
    requires { (least ≤ at) × (at ≤ length s.now) }
    ensures { (least ≤ result) × (result ≤ at) × Between s.now least result }
{
    match last_lf(&s[least..at]) {
        Some(i) => least + i + 1,
        None => least,
    }
}

// The first key of some lines, and where the line behind its own begins.
#[derive(Clone, Copy)]
struct First<'a> {
    key: &'a [u8],
    next: usize,
}

// The first key of the lines that begin in a part of the baseline.
fn first_key(baseline: &[u8], from: usize, end: usize) -> Option<First<'_>>
    requires { (from < end) × (end ≤ length baseline.now) }
    ensures { IfSome result (λ first. (from < first.next) × Leads baseline.now from (some first.key.now) first.next) }
{
    for line in Lines::from_place(baseline, from) {
        if end <= line.from {
            return None;
        }
        if let Some(key) = baseline::key(line.bytes) {
            return Some(First {
                key,
                next: line.next,
            });
        }
    }
    None
}

// Where the line behind the first key of a part begins, if that key stands before the one sought.
fn past_lower(baseline: &[u8], from: usize, end: usize, sought: FunctionKey) -> Option<usize>
    requires { (from < end) × (end ≤ length baseline.now) }
    ensures { IfSome result (λ next. (from < next) × LeadsBelow baseline.now from (key_bytes sought.entry) next) }
{
    let first = first_key(baseline, from, end)?;
    let lower = key_before(first.key, sought);
    lower.then_some(first.next)
}

// A line such that every key in front of it stands before the one sought. The part in which it may begin is halved at each turn.
fn first_place(baseline: &[u8], sought: FunctionKey) -> usize
    requires { Unfalling (keys_in baseline.now) }
    ensures { Below baseline.now (key_bytes sought.entry) result }
{
    let mut lo: usize = 0;
    let mut hi = baseline.len();
    // Kept: the part is cut where lines begin, so no range of numbers is halved.
    while lo < hi {
        let from = line_start(baseline, lo, lo + (hi - lo) / 2);
        match past_lower(baseline, from, hi, sought) {
            Some(next) => lo = next,
            None => hi = from,
        }
    }
    lo
}

// What the lines from a place on accept. The first key that stands behind the one sought ends the search.
fn lookup_from(baseline: &[u8], sought: FunctionKey, place: usize) -> Option<Recorded>
    requires { Unfalling (keys_in baseline.now) × Below baseline.now (key_bytes sought) place }
    ensures { result ≡ accepted_by (lookup (key_bytes sought.entry) (entries_of_lines baseline.now)) }
{
    let mut found = None;
    for line in Lines::from_place(baseline, place) {
        if is_beyond(line.bytes, sought) {
            return found;
        }
        found = in_line(line.bytes, sought).or(found);
    }
    found
}

// What a baseline whose keys never fall accepts of the function with this key. Of equal keys the last line wins.
pub fn lookup_ordered(baseline: &[u8], sought: FunctionKey) -> Option<Recorded>
    requires { Unfalling (keys_in baseline.now) }
    ensures { result ≡ accepted_by (lookup (key_bytes sought.entry) (entries_of_lines baseline.now)) }
{
    let place = first_place(baseline, sought);
    lookup_from(baseline, sought, place)
}
