// What the last long searches for a body found, each kept by what it has counted at one place of the text. A search that comes to that place at the
// same depths finds the same, and is not made again.
#![tactic(auto)]

ghost use Rattle.std.specs.Prelude.{◌≡◌, true, ℕ, ◌+◌, ◌≤◌, ◌<◌, List, Option, None, length, MatchOption};
ghost use Rattle.std.specs.List.{All};
ghost use Rattle.flat.specs.Body.{Counted, Reaches, body_from};
ghost use Rattle.chunks.specs.Passing.{LevelsFit, PassesBody};
ghost use Rattle.memo.specs.Memo.{AllCounted, Entry, Forgotten, Holds, Keeps, Known, Recalls, TellsPast};

use chunks::{Chunk, TextSums};
use flat::{Counts, Reached};

// The searches that are kept.
const MOST: usize = 64;

// The chunk at a place, where it ends before another: what a search has counted behind it. None where the search may end in it.
fn past_before(text: TextSums, at: usize, to: usize, n: Counts) -> Option<Counts>
    requires { (at ≤ to) × Counted n at }
    ensures { TellsPast text.entry.text.now at to n result }
{
    if to - at < chunks::SIZE {
        return None;
    }
    text.body_past(at, n)
}

// The search for a body from one place up to another. Chunks are passed, or read up to the next.
// Kept: `far_end` of signatures goes by the same steps, but what it counts, how it passes a chunk or reads on, and what ends it differ. One function
// for both would need a trait with two methods and their laws, and a type with an impl for each: more than the two loops.
pub fn body_until(text: TextSums, from: usize, to: usize, n: Counts) -> Reached
    requires { (from ≤ to) × (to ≤ length text.text.now) × Counted n from }
    ensures { Reaches text.entry.text.now from to n result }
{
    let mut at = from;
    let mut counts = n;
    // Kept: a step is a chunk, or the bytes up to the next one. An iterator of such steps would serve this loop alone.
    while at < to {
        match past_before(text, at, to, counts) {
            Some(k) => {
                at += chunks::SIZE;
                counts = k;
            }
            None => {
                let stop = chunks::edge_after(at, to);
                match flat::body_before(text.text, at, stop, counts) {
                    Reached::Brace(p) => {
                        return Reached::Brace(p);
                    }
                    Reached::Ended(p) => {
                        return Reached::Ended(p);
                    }
                    Reached::Further(k) => {
                        at = stop;
                        counts = k;
                    }
                }
            }
        }
    }
    Reached::Further(counts)
}

// A search comes from one place to another: past all bytes at once where it cannot end in them.
#[tactic(auto, using(chunks::specs::PastLaws::counted_further, crate::specs::Memo::goes_past))]
fn body_behind(text: TextSums, from: usize, to: usize, c: Chunk, n: Counts) -> Reached
    requires { (from ≤ to)
        × (to ≤ length text.text.now)
        × (to ≤ from + 4096)
        × Counted n from
        × LevelsFit c.ends
        × PassesBody text.text.now from to c }
    ensures { Reaches text.entry.text.now from to n result }
{
    if chunks::misses(c, n) {
        return Reached::Further(chunks::counts_past(c, n));
    }
    body_until(text, from, to, n)
}

// Whether a search has another's depths.
fn is_same(a: Counts, b: Counts) -> bool
    requires { Counted a 9223372036854775807 × Counted b 9223372036854775807 }
    ensures { result ≡ true → (a.angle ≡ b.angle) × (a.opened + b.closed ≡ b.opened + a.closed) }
{
    a.angle == b.angle && a.opened + b.closed == b.opened + a.closed
}

// A search: what it has counted at the place that is kept, and the brace that it finds, or none.
#[derive(Clone, Copy)]
struct Search {
    counts: Counts,
    found: Option<usize>,
}

impl Search {
    // The search at a later place. None where it ends before that.
    fn moved(self, text: TextSums, from: usize, to: usize, c: Chunk) -> Option<Search>
        requires { (from ≤ to)
            × (to ≤ length text.text.now)
            × (to ≤ from + 4096)
            × Holds text.text.now from self
            × LevelsFit c.ends
            × PassesBody text.text.now from to c }
        ensures { Entry text.entry.text.now to result }
    {
        match body_behind(text, from, to, c, self.counts) {
            Reached::Further(counts) => Some(Search { counts, ..self }),
            _ => None,
        }
    }
}

// The searches that are kept, by what they have counted at the place `at`. One of them goes as far as `end`. `turn` tells which is given up next.
// They stand at the first `used` indices. What stands behind those means nothing, so that all of them are forgotten by setting one number.
#[derive(Clone, Copy)]
pub struct Kept {
    at: usize,
    turn: usize,
    end: usize,
    used: usize,
    searches: [Option<Search>; MOST],
}

impl Kept {
    // No search is kept, and none stands at any index.
    pub fn new() -> Kept
        ensures forgotten { Forgotten 0 result }
        ensures empty { All (λ x. x ≡ None) result.searches }
    {
        Kept {
            at: 0,
            turn: 0,
            end: 0,
            used: 0,
            searches: [None; MOST],
        }
    }

    // No search is kept any more, and the place is another.
    pub fn forget(&mut self, at: usize)
        ensures { Forgotten at self.new }
    {
        self.at = at;
        self.end = at;
        self.used = 0;
    }

    // All searches come to a place that is at most a chunk further on. Those that end before it are given up.
    #[tactic(auto, using(crate::specs::Moving::one_more, crate::specs::Moving::all_there, chunks::specs::Sums::levels_within))]
    fn move_all(&mut self, text: TextSums, to: usize)
        requires { (self.old.at ≤ to)
            × (to ≤ self.old.at + 4096)
            × (to ≤ length text.text.now)
            × Recalls text.text.now self.old }
        ensures { (self.new.at ≡ to) × Recalls text.entry.text.now self.new }
    {
        let from = self.at;
        let c = chunks::body_sum(text.text, from, to);
        for search in &mut self.searches[..self.used.min(MOST)] {
            if let Some(x) = *search {
                *search = x.moved(text, from, to, c);
            }
        }
        self.at = to;
    }

    // All searches come to a place.
    fn advance(&mut self, text: TextSums, to: usize)
        requires { (self.old.at ≤ to)
            × (to ≤ length text.text.now)
            × Recalls text.text.now self.old }
        ensures { (self.new.at ≡ to) × Recalls text.entry.text.now self.new }
    {
        let from = self.at;
        for at in (from..to).step_by(chunks::SIZE) {
            self.move_all(text, at.saturating_add(chunks::SIZE).min(to));
        }
    }

    // What a search finds that is kept with the same depths.
    #[tactic(auto, using(crate::specs::Memo::same_finds))]
    fn find(&self, n: Counts) -> Option<Option<usize>>
        requires { Counted n 9223372036854775807 × AllCounted 9223372036854775807 self.now }
        ensures { (s : List ℕ) → Recalls s self.now → Known result (body_from s self.now.at n) }
    {
        for search in &self.searches[..self.used.min(MOST)] {
            if let Some(x) = *search {
                if is_same(x.counts, n) {
                    return Some(x.found);
                }
            }
        }
        None
    }

    // What a search finds that has so much counted at a place, a brace or none; None where that is not known. The place is kept. Searches that are
    // kept for a place further on are given up, and all of them where none goes as far as the place: where searches do not overlap there is nothing
    // to find, and nothing is read twice.
    // Kept: that the searches are those of the text stands in the clauses here. The text is lent by the value that holds both, whose invariant it is.
    #[tactic(auto, using(chunks::specs::PastLaws::counted_further, crate::specs::Memo::all_counted))]
    pub fn recall(&mut self, text: TextSums, at: usize, n: Counts) -> Option<Option<usize>>
        requires { (at ≤ length text.text.now) × Counted n at × Recalls text.text.now self.old }
        ensures { Known result (body_from text.entry.text.now at n)
            × (self.new.at ≡ at)
            × Recalls text.entry.text.now self.new }
    {
        if at < self.at || self.end <= at {
            self.forget(at);
            return None;
        }
        self.advance(text, at);
        self.find(n)
    }

    // The index that is taken where each of the first `used` keeps a search: the next one, or else the one behind the last that was taken.
    fn next_index(&self) -> usize
        ensures { (result < 64) × (result ≤ self.now.used) }
    {
        if self.used < MOST {
            return self.used;
        }
        self.turn % MOST
    }

    // Where the next search is kept: at an index that keeps none, or else behind the last one that was taken.
    fn free_index(&self) -> usize
        ensures { (result < 64) × (result ≤ self.now.used) }
    {
        self.searches[..self.used.min(MOST)]
            .iter()
            .position(|search| search.is_none())
            .unwrap_or(self.next_index())
    }

    // A search is kept with what it finds, in place of another where all indices keep one. It goes as far as `end`, which
    // decides only how long later searches take.
    pub fn keep(&mut self, n: Counts, found: Option<usize>, end: usize)
        ensures { Keeps n found self.old self.new }
    {
        let i = self.free_index();
        self.turn = i + 1;
        self.end = self.end.max(end);
        self.used = self.used.max(i + 1);
        self.searches[i] = Some(Search { counts: n, found });
    }

    // Where a search that begins at a place is looked up: at the place that is kept, if that is near.
    pub fn mark_after(&self, from: usize, end: usize) -> usize
        requires { from ≤ end }
        ensures { (from ≤ result) × (result ≤ end) }
    {
        let mark = from.saturating_add(2 * STEP - from % STEP).min(end);
        if self.at < mark || from.saturating_add(REACH).min(end) < self.at {
            mark
        } else {
            self.at
        }
    }
}

// A search is looked up at the first place that is so many bytes further on and that their number divides: by then it has met others that go far.
const STEP: usize = 64;

// The most bytes that a search reads up to the place that is kept.
const REACH: usize = 512;

#[cfg(test)]
mod tests {
    use super::Kept;
    use chunks::{Table, TextSums};
    use flat::Counts;

    // Nothing is found where no search is kept: at the beginning, and once all are forgotten.
    #[test]
    fn none_kept(rt: HostRuntime) {
        let table = Table::new();
        let text = TextSums {
            text: b"x { }",
            table: &table,
        };
        let n = Counts {
            angle: 0,
            opened: 0,
            closed: 0,
        };
        let mut kept = Kept::new();
        assert!(rt; kept.recall(text, 0, n).is_none());
        kept.keep(n, Some(2), 5);
        kept.forget(3);
        assert!(rt; kept.recall(text, 3, n).is_none());
    }
}
