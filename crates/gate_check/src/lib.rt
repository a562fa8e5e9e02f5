// The call check: the functions of a tree against what the baseline accepts, and a listing of what got worse and of what is stale.
// A baseline that is too long is refused before the tree is scanned. How long the listing is, is known before any of it is written.
// Kept: a host lends each buffer on its own, as C passes it, so that no struct holds the buffers of a call.
#![tactic(auto)]

ghost use Rattle.std.specs.Prelude.{◌≡◌, true, ◌≤◌, ltb, length, replicate, take};
ghost use Rattle.text_rules.specs.Bytes.{put_at, ◌or_else◌, ◌when◌};
ghost use Rattle.text_rules.specs.Utf8.{is_utf8};
ghost use Rattle.gate_rules.specs.Baseline.{entries, entries_of_lines};
ghost use Rattle.gate_rules.specs.Calls.{check_call};
ghost use Rattle.gate_rules.specs.Check.{listed};
ghost use Rattle.gate_rules.specs.Functions.{gate_limits};
ghost use Rattle.gate_rules.specs.Gate.{gate};
ghost use Rattle.gate_rules.specs.Scan.{functions_of};
ghost use Rattle.gate_rules.specs.Tree.{tree_refusal};
ghost use Rattle.answers.specs.Numbers.{number_of};
ghost use Rattle.functions.specs.Shown.{limits_of};
ghost use Rattle.listing.specs.Writes.{Room, Writes};
ghost use Rattle.regressions.specs.Worse.{worse_in};
ghost use Rattle.listed_keys.specs.KeyLines.{Sizes};
ghost use Rattle.in_order.specs.StaleKeys.{stale_in};
ghost use Rattle.gate_check.specs.Checks.{Checks, Tells, check_told, listing_in};

use answers::Refusal;
use baseline::Baseline;
use functions::{Functions, Limits};
use listing::{Size, Writer};
use regressions::Entries;
use stale::{KeyOrder, Stale};

// The largest baseline, in bytes.
const MAX_BASELINE: usize = 33554432;

// What check answers: the bytes written, how many functions the tree has, how many regression lines there are, and how many entries are stale.
#[derive(Clone, Copy)]
pub struct CheckCounts {
    pub written: u32,
    pub functions: u32,
    pub regressed: u32,
    pub stale: u32,
}

// The baseline's entries, for the functions of the tree: where a key falls, the place of each function is noted in the lent array of zeros.
fn entries_of<'a>(stale: Stale<'a>, places: &'a mut [u32; 8192]) -> Entries<'a>
    requires { places.old ≡ replicate 8192 0 }
    ensures functions { result.functions ≡ stale.entry.functions }
    ensures lines { result.lines.now ≡ stale.entry.baseline.lines.now }
{
    let functions = stale.functions;
    let lines = stale.baseline.lines;
    if let KeyOrder::Any = stale.order {
        places::fill(functions, stale.baseline, places);
        return Entries {
            functions,
            lines,
            places: Some(places),
        };
    }
    Entries {
        functions,
        lines,
        places: None,
    }
}

// What check lists: the stale keys, and what got worse by some limits, with the size of its lines.
#[derive(Clone, Copy)]
struct Listing<'a> {
    limits: Limits,
    stale: Stale<'a>,
    entries: Entries<'a>,
    worse: Size,
    ghost tree: { entries.functions.tree.now ≡ stale.functions.tree.now },
    ghost lines: { entries.lines.now ≡ stale.baseline.lines.now },
    ghost stale_sizes: { Sizes stale.size.count stale.size.bytes (stale_in stale.functions.tree.now stale.baseline.lines.now) },
    ghost worse_count: { worse.count ≡ length (worse_in (limits_of limits) entries.functions.tree.now entries.lines.now) },
    ghost worse_bytes: { worse.bytes ≡ length (listed (worse_in (limits_of limits) entries.functions.tree.now entries.lines.now)) },
    ghost worse_short: { worse.bytes ≤ 655360000000 },
}

impl Listing<'_> {
    // Its bytes.
    fn length(self) -> usize
        ensures { result ≡ length (listing_in (limits_of self.entry.limits) self.entry.entries.functions.tree.now self.entry.entries.lines.now) }
    {
        check_texts::stale_length(self.stale.size) + check_texts::verdict_length(self.worse)
    }

    // Its text.
    fn write(self, w: &mut Writer<'_>)
        requires { Room (listing_in (limits_of self.limits) self.entries.functions.tree.now self.entries.lines.now) w.old }
        ensures { Writes (listing_in (limits_of self.entry.limits) self.entry.entries.functions.tree.now self.entry.entries.lines.now) w.old w.new }
    {
        check_texts::write_stale(w, self.stale);
        check_texts::write_verdict(w, self.entries, self.limits, self.worse.count);
    }

    // Its text, from the first byte on, and how many bytes it has.
    fn put(self, output: &mut [u8]) -> usize
        requires room { length (listing_in (limits_of self.limits) self.entries.functions.tree.now self.entries.lines.now) ≤ length output.old }
        ensures end { result ≡ length (listing_in (limits_of self.entry.limits) self.entry.entries.functions.tree.now self.entry.entries.lines.now) }
        ensures bytes { output.new ≡ put_at 0 (listing_in (limits_of self.entry.limits) self.entry.entries.functions.tree.now self.entry.entries.lines.now) output.old }
    {
        let mut w = Writer { out: output, at: 0 };
        self.write(&mut w);
        w.at
    }
}

// What check says of a scanned tree: 9, or the listing and its counts. It is no part of its caller, so that its places do not lie on the stack while
// the tree is scanned.
#[inline(never)]
fn told<'a>(
    limits: Limits,
    functions: Functions<'a>,
    baseline: Baseline<'a>,
    output: &mut [u8],
) -> Result<CheckCounts, Refusal>
    requires { is_utf8 baseline.lines.now ≡ true }
    ensures { Tells (check_told result) (limits_of limits) (entries_of_lines baseline.entry.lines.now) (functions_of gate functions.entry.tree.now) output.old output.new }
{
    let stale = stale::measure(functions, baseline);
    let mut places = [0u32; 8192];
    let entries = entries_of(stale, &mut places);
    let worse = regressions::measure(entries, limits);
    let listing = Listing {
        limits,
        stale,
        entries,
        worse,
    };
    if output.len() < listing.length() {
        return Err(Refusal::Output);
    }
    let written = listing.put(output);
    Ok(CheckCounts {
        written: written as u32,
        functions: functions.count as u32,
        regressed: worse.count as u32,
        stale: stale.size.count as u32,
    })
}

// How much of the baseline is read: one that is not UTF-8 has no entries.
fn read_length(baseline: &[u8]) -> usize
    ensures { (result ≤ length baseline.now)
        × (is_utf8 (take result baseline.now) ≡ true)
        × (entries_of_lines (take result baseline.now) ≡ entries baseline.now) }
{
    if baseline::readable(baseline) {
        return baseline.len();
    }
    0
}

// Why a call is refused whose baseline is too long: 1 to 5 come before 7.
fn long_refusal(tree: &[u8], room: usize) -> Refusal
    ensures first { number_of result ≡ tree_refusal tree.now or_else 5 when ltb room (length tree.now) or_else 7 }
    ensures most { number_of result ≤ 7 }
{
    if room < tree.len() {
        return tree::refusal_or(tree, Refusal::Work);
    }
    tree::refusal_or(tree, Refusal::Baseline)
}

// The call check with any limits: the refusals 1 to 5, 7, 8 and 9; the tree's texts blanked into work, its records, and the listing.
pub fn check_with(
    limits: Limits,
    tree: &[u8],
    baseline: &[u8],
    work: &mut [u8],
    lent: &mut [u8],
    output: &mut [u8],
) -> Result<CheckCounts, Refusal>
    ensures { Checks (check_told result)
        (check_call gate (limits_of limits) tree.now baseline.now work.old lent.old output.old)
        work.new
        lent.new
        output.new }
{
    if MAX_BASELINE < baseline.len() {
        return Err(long_refusal(tree, work.len()));
    }
    let count = gate_scan::scan(tree, work, lent)?;
    let functions = Functions {
        tree,
        records: lent,
        count: count as usize,
    };
    let read = Baseline {
        lines: &baseline[..read_length(baseline)],
    };
    told(limits, functions, read, output)
}

// The call check.
// Kept: hosts and programs call it by this name, and its contract is in the rules' words for them. With `check_with` alone each would bring the gate's
// limits, and prove that they are these.
pub fn check(
    tree: &[u8],
    baseline: &[u8],
    work: &mut [u8],
    lent: &mut [u8],
    output: &mut [u8],
) -> Result<CheckCounts, Refusal>
    ensures { Checks (check_told result)
        (check_call gate gate_limits tree.now baseline.now work.old lent.old output.old)
        work.new
        lent.new
        output.new }
{
    check_with(functions::gate_limits(), tree, baseline, work, lent, output)
}
