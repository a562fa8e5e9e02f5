// The stale keys of a tree and a baseline.

ghost use Rattle.in_order.specs.Known.{Known};
ghost use Rattle.in_order.specs.OneProof.{known_prop};

use baseline::Baseline;
use functions::Functions;
use listing::Size;

// What is known of the order of a baseline's keys.
#[derive(Clone, Copy)]
pub enum KeyOrder {
    // No key falls, and all of them are stale: each line is plain or starts with #.
    AllStale,
    // No key falls.
    Rising,
    // Nothing is known.
    Any,
}

// The stale keys: the tree and the baseline, the order of the baseline's keys, and the size of the lines of the stale ones.
#[derive(Clone, Copy)]
pub struct Stale<'a> {
    pub functions: Functions<'a>,
    pub baseline: Baseline<'a>,
    pub order: KeyOrder,
    pub size: Size,
    pub ghost known: { Known order functions.tree.now baseline.lines.now } by { known_prop order functions.tree.now baseline.lines.now },
}
