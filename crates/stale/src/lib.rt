// The stale keys: those of entries that no function of the tree has, each once and in byte order of the whole key. Where the keys of the baseline
// never fall, as in a file that update wrote, they are taken as they stand there; elsewhere batch by batch. They are measured first, so that a caller
// knows how many bytes their lines take before any of them is written.
#![tactic(auto)]

ghost use Rattle.std.specs.Prelude.{◌≡◌, true};
ghost use Rattle.text_rules.specs.Utf8.{is_utf8};
ghost use Rattle.listing.specs.Writes.{Room, Writes};
ghost use Rattle.listed_keys.specs.KeyLines.{Sizes, key_lines};
ghost use Rattle.in_order.specs.StaleKeys.{stale_in};

use baseline::Baseline;
use functions::Functions;
pub use in_order::{KeyOrder, Stale};
use listing::Writer;

// How many stale keys there are, the bytes of their lines, and the order of the baseline's keys.
pub fn measure<'a>(functions: Functions<'a>, baseline: Baseline<'a>) -> Stale<'a>
    requires { is_utf8 baseline.lines.now ≡ true }
    ensures functions { result.functions ≡ functions.entry }
    ensures baseline { result.baseline ≡ baseline.entry }
    ensures sizes { Sizes result.size.count result.size.bytes (stale_in functions.entry.tree.now baseline.entry.lines.now) }
{
    match in_order::measure(functions, baseline) {
        Some(stale) => stale,
        None => Stale {
            functions,
            baseline,
            order: KeyOrder::Any,
            size: batches::measure(functions, baseline),
        },
    }
}

// The lines of the stale keys.
pub fn write_all(stale: Stale, w: &mut Writer<'_>)
    requires { Room (key_lines (stale_in stale.functions.tree.now stale.baseline.lines.now)) w.old }
    ensures { Writes (key_lines (stale_in stale.entry.functions.tree.now stale.entry.baseline.lines.now)) w.old w.new }
{
    match stale.order {
        KeyOrder::AllStale => listed_keys::write_whole(stale.baseline.lines, w),
        KeyOrder::Rising => in_order::write_each(stale.functions, stale.baseline.lines, w),
        KeyOrder::Any => batches::write_all(stale.functions, stale.baseline, w),
    }
}
