// What a baseline accepts of the functions of a tree.

ghost use Rattle.std.specs.Prelude.{◌≡◌, ◌<◌, get_or};
ghost use Rattle.std.specs.Coded.{→_prop};
ghost use Rattle.std.specs.Option.{ForNone, ForSome};
ghost use Rattle.gate_rules.specs.Baseline.{entries_of_lines, lookup};
ghost use Rattle.gate_rules.specs.Functions.{key};
ghost use Rattle.gate_rules.specs.Gate.{gate};
ghost use Rattle.gate_rules.specs.Scan.{functions_of};
ghost use Rattle.functions.specs.Shown.{no_fun, shown};
ghost use Rattle.baseline.specs.Ordered.{Unfalling, Unfalling-prop, keys_in};
ghost use Rattle.baseline.specs.Reads.{accepted_by};
ghost use Rattle.places.specs.Places.{Filled};

use baseline::Recorded;
use functions::{Function, Functions};

// The functions of a tree, and the lines of a baseline. Where its keys never fall, entries are found by halves, and otherwise at the places that were
// noted for the functions.
#[derive(Clone, Copy)]
pub struct Entries<'a> {
    pub functions: Functions<'a>,
    pub lines: &'a [u8],
    pub places: Option<&'a [u32; 8192]>,
    pub ghost unfalling: { ForNone places (Unfalling (keys_in lines.now)) } by { →_prop (Unfalling-prop (keys_in lines.now)) },
    pub ghost filled: { ForSome places (λ p. Filled lines.now (functions_of gate functions.tree.now) p.now) },
}

impl Entries<'_> {
    // What is accepted of a function, which has a number.
    pub fn accepted(self, k: usize, f: Function) -> Option<Recorded>
        requires inside { k < self.functions.count }
        requires read { shown f ≡ get_or (functions_of gate self.functions.tree.now) k no_fun }
        ensures { result ≡ accepted_by (lookup (key (shown f.entry)) (entries_of_lines self.entry.lines.now)) }
    {
        match self.places {
            None => lookup::lookup_ordered(self.lines, live::function_key(f)),
            Some(places) => places::accepted_at(self.lines, places[k]),
        }
    }
}
