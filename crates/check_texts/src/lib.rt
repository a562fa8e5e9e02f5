// The two texts of check's listing, that about the stale entries and the verdict: how many bytes they take, and their writers.
#![tactic(auto)]

ghost use Rattle.std.specs.Prelude.{◌≡◌, ◌≤◌, length};
ghost use Rattle.gate_rules.specs.Check.{stale_text, verdict_text};
ghost use Rattle.functions.specs.Shown.{limits_of};
ghost use Rattle.listing.specs.Writes.{Room, Writes};
ghost use Rattle.regressions.specs.Worse.{worse_in};
ghost use Rattle.in_order.specs.StaleKeys.{stale_in};
ghost use Rattle.check_texts.specs.Texts.{stale_length, verdict_length};

use functions::Limits;
use listing::{Size, Writer};
use regressions::Entries;
use stale::Stale;

// ---- the stale entries

// The bytes of the text about them. Where there are none, there is no text.
pub fn stale_length(keys: Size) -> usize
    requires { keys.bytes ≤ 1000000000000 }
    ensures { (result ≡ stale_length keys.count keys.bytes) × (result ≤ 1000000000100) }
{
    if keys.count == 0 {
        return 0;
    }
    listing::digits(keys.count as u64) + 35 + keys.bytes + 26
}

// The text about the stale entries.
pub fn write_stale(w: &mut Writer<'_>, stale: Stale)
    requires counted { stale.size.count ≡ length (stale_in stale.functions.tree.now stale.baseline.lines.now) }
    requires room { Room (stale_text (stale_in stale.functions.tree.now stale.baseline.lines.now)) w.old }
    ensures { Writes (stale_text (stale_in stale.entry.functions.tree.now stale.entry.baseline.lines.now)) w.old w.new }
{
    if stale.size.count == 0 {
        return;
    }
    w.number(stale.size.count as u64);
    w.text(b" baseline entries no longer exist:\n");
    stale::write_all(stale, w);
    w.text(b"run --update to drop them\n");
}

// ---- the verdict

// The bytes of the verdict and of the regression lines.
pub fn verdict_length(worse: Size) -> usize
    requires { worse.bytes ≤ 1000000000000 }
    ensures { (result ≡ verdict_length worse.count worse.bytes) × (result ≤ 1000000000100) }
{
    if worse.count == 0 {
        return 70;
    }
    25 + listing::digits(worse.count as u64) + worse.bytes
}

// The verdict and the regression lines, of which there are `count`.
pub fn write_verdict(w: &mut Writer<'_>, entries: Entries, limits: Limits, count: usize)
    requires counted { count ≡ length (worse_in (limits_of limits) entries.functions.tree.now entries.lines.now) }
    requires room { Room (verdict_text (worse_in (limits_of limits) entries.functions.tree.now entries.lines.now)) w.old }
    ensures { Writes (verdict_text (worse_in (limits_of limits) entries.entry.functions.tree.now entries.entry.lines.now)) w.old w.new }
{
    if count == 0 {
        w.text(b"complexity: no function got worse, nothing new is over the thresholds\n");
        return;
    }
    w.counted(count as u64);
    regressions::write_all(w, entries, limits);
}
