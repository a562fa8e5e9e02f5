// What a chunk of a text, 4,096 bytes, does to the searches that pass it. Once many searches have gone far, the sums of all chunks are written into a
// table, and a search passes a chunk in which it cannot end without reading it.
#![tactic(auto)]

ghost use Rattle.std.specs.Prelude.{◌≡◌, true, [], ◌∷◌, ◌+◌, ◌-◌, ◌≤◌, ◌<◌, ℕ, List, length};
ghost use Rattle.text_rules.specs.Classes.{angle_close, brace_open, semicolon};
ghost use Rattle.flat.specs.Body.{Counted};
ghost use Rattle.chunks.specs.Passing.{LevelsFit, Misses, PassesBody, PassesRound, TellsChunk, TellsCounts, TellsDepth};
ghost use Rattle.chunks.specs.PastLaws.{counts_past};
ghost use Rattle.chunks.specs.Sums.{Behind, Within, ends_with};
ghost use Rattle.chunks.specs.Table.{Described, Summed, TellsSums};
ghost use Rattle.chunks.specs.declared.Far.TheVariants.{Few};

use flat::Counts;

pub const SIZE: usize = 4096;

// The chunks that have sums. More than 16 MB have none.
const MOST: usize = 4096;

// The searches that go far before the sums are written: writing them takes a pass over the text.
const OFTEN: u16 = 16;

// The level of square brackets at which a chunk begins.
const BASE: usize = 4096;

// The round brackets of some bytes, at most as many as a chunk has: those that close one from before, and those that are not closed there.
#[derive(Clone, Copy)]
pub struct Round {
    pub closed: u16,
    pub opened: u16,
}

// The `{` and `;` of some bytes that stand outside the angle brackets that are opened there: the lowest and the highest level of square brackets at
// which one stands, and how many `>` that close a `<` from before stand before the last of them.
#[derive(Clone, Copy)]
pub struct Ends<N = usize> {
    pub low: N,
    pub high: N,
    pub ended: N,
}

// What some bytes do to a search for a body: `>` that close a `<` from before, `<` that are not closed there, `[`,
// `]`, and the `{` and `;` at which the search may end, if there are any. The table keeps these numbers in 16 bits.
#[derive(Clone, Copy)]
pub struct Chunk<N = usize> {
    pub downs: N,
    pub ups: N,
    pub opened: N,
    pub closed: N,
    pub ends: Option<Ends<N>>,
}

// The round brackets from one place to another that have no partner there.
fn round_sum(s: &[u8], from: usize, to: usize) -> Round
    requires { (from ≤ to) × (to ≤ length s.now) × (to ≤ from + 4096) }
    ensures { PassesRound s.now from to result × (result.closed + result.opened ≤ to - from) }
{
    let n = search::count_unmatched(s, b'(', b')', from, to);
    Round {
        closed: n.closed as u16,
        opened: n.opened as u16,
    }
}

// The sums behind a `>`.
fn closed_angle(c: Chunk) -> Chunk
    requires { Within 4095 c }
    ensures { Behind angle_close c result }
{
    match c.ups.checked_sub(1) {
        Some(ups) => Chunk { ups, ..c },
        None => Chunk {
            downs: c.downs + 1,
            ..c
        },
    }
}

// The `{` and `;` with one more, at a level and behind so many `>`.
fn with_end(ends: Option<Ends>, level: usize, ended: usize) -> Ends
    ensures { result ≡ ends_with ends level ended }
{
    match ends {
        Some(e) => Ends {
            low: e.low.min(level),
            high: e.high.max(level),
            ended,
        },
        None => Ends {
            low: level,
            high: level,
            ended,
        },
    }
}

// The sums behind a `{` or `;`.
fn stopped(c: Chunk) -> Chunk
    requires { Within 4095 c }
    ensures { Behind brace_open c result × Behind semicolon c result }
{
    if 0 < c.ups {
        return c;
    }
    let level = BASE + c.opened - c.closed;
    Chunk {
        ends: Some(with_end(c.ends, level, c.downs)),
        ..c
    }
}

// The sums behind a byte.
fn sums_after(b: u8, c: Chunk) -> Chunk
    requires { Within 4095 c }
    ensures { Behind b c result }
{
    match b {
        b'<' => Chunk {
            ups: c.ups + 1,
            ..c
        },
        b'>' => closed_angle(c),
        b'[' => Chunk {
            opened: c.opened + 1,
            ..c
        },
        b']' => Chunk {
            closed: c.closed + 1,
            ..c
        },
        b'{' | b';' => stopped(c),
        _ => c,
    }
}

// What the bytes from one place to another do to a search for a body, at most as many as a chunk has.
pub fn body_sum(s: &[u8], from: usize, to: usize) -> Chunk
    requires { (from ≤ to) × (to ≤ length s.now) × (to ≤ from + 4096) }
    ensures { PassesBody s.now from to result × Within (to - from) result }
{
    let mut c = Chunk {
        downs: 0,
        ups: 0,
        opened: 0,
        closed: 0,
        ends: None,
    };
    for at in from..to {
        c = sums_after(s[at], c);
    }
    c
}

// Where the next chunk begins behind a place, the end of the text where none does before it.
pub fn edge_after(at: usize, end: usize) -> usize
    requires { at < end }
    ensures { (at < result) × (result ≤ end) }
{
    let left = SIZE - at % SIZE;
    if end - at < left { end } else { at + left }
}

// Whether a search with these counts does not end in a chunk.
pub fn misses(c: Chunk, n: Counts) -> bool
    requires { LevelsFit c.ends × Counted n 9223372036854775807 }
    ensures { result ≡ true → Misses c n.angle n.opened n.closed }
{
    let Some(e) = c.ends else {
        return true;
    };
    let level = BASE + n.closed;
    e.ended < n.angle || level < e.low + n.opened || e.high + n.opened < level
}

// What a search has counted behind a chunk.
pub fn counts_past(c: Chunk, n: Counts) -> Counts
    requires { (c.ups ≤ 4096) × (c.opened ≤ 4096) × (c.closed ≤ 4096) × Counted n 9223372036854775807 }
    ensures { result ≡ counts_past c n }
{
    Counts {
        angle: n.angle.saturating_sub(c.downs) + c.ups,
        opened: n.opened + c.opened,
        closed: n.closed + c.closed,
    }
}

// The sums of a chunk in 16 bits, as the table keeps them.
fn stored(c: Chunk) -> Chunk<u16>
    requires { Within 4096 c }
    ensures { result ≡ c }
{
    Chunk {
        downs: c.downs as u16,
        ups: c.ups as u16,
        opened: c.opened as u16,
        closed: c.closed as u16,
        ends: c.ends.map(|e| Ends {
            low: e.low as u16,
            high: e.high as u16,
            ended: e.ended as u16,
        }),
    }
}

impl From<Chunk<u16>> for Chunk {
    // The sums that the table keeps.
    fn from(c: Chunk<u16>) -> Chunk
        ensures { result ≡ c }
    {
        Chunk {
            downs: usize::from(c.downs),
            ups: usize::from(c.ups),
            opened: usize::from(c.opened),
            closed: usize::from(c.closed),
            ends: c.ends.map(|e| Ends {
                low: usize::from(e.low),
                high: usize::from(e.high),
                ended: usize::from(e.ended),
            }),
        }
    }
}

// The sums of a chunk.
#[derive(Clone, Copy)]
struct Sums {
    round: Round,
    body: Chunk<u16>,
}

// Those that stand in the table before any are written.
const NO_SUMS: Sums = Sums {
    round: Round {
        closed: 0,
        opened: 0,
    },
    body: Chunk {
        downs: 0,
        ups: 0,
        opened: 0,
        closed: 0,
        ends: None,
    },
};

// How many searches went far: a few so many, or so many that the sums are written.
#[derive(Clone, Copy)]
enum Far {
    Few(u16),
    Often,
}

// The sums of the chunks of a text. It is lent to the searches in the text.
#[derive(Clone, Copy)]
pub struct Table {
    far: Far,
    sums: [Sums; MOST],
}

impl Table {
    // Nothing is told, and no search is counted.
    pub fn new() -> Table
        ensures nothing { (s : List ℕ) → Summed s result }
        ensures none_counted { result.far ≡ Few 0 }
    {
        Table {
            far: Far::Few(0),
            sums: [NO_SUMS; MOST],
        }
    }

    // Nothing is told any more, and no search is counted.
    pub fn clear(&mut self)
        ensures nothing { (s : List ℕ) → Summed s self.new }
        ensures none_counted { self.new.far ≡ Few 0 }
    {
        self.far = Far::Few(0);
    }

    // The sums of all chunks are written.
    #[tactic(auto, using(crate::specs::Table::written_more, crate::specs::Sums::levels_within))]
    fn write(&mut self, s: &[u8])
        ensures { Summed s.now self.new }
    {
        let many = MOST.min(s.len() / SIZE);
        for j in 0..many {
            let at = j * SIZE;
            self.sums[j] = Sums {
                round: round_sum(s, at, at + SIZE),
                body: stored(body_sum(s, at, at + SIZE)),
            };
        }
        self.far = Far::Often;
    }

    // Counts a search that goes far. The sums are written once there are many.
    pub fn count_far(&mut self, s: &[u8])
        requires { Described s.now self.old }
        ensures described { Described s.now self.new }
        ensures summed { Summed s.now self.old → Summed s.now self.new }
    {
        match self.far {
            Far::Often => {}
            Far::Few(n) if n < OFTEN - 1 => self.far = Far::Few(n + 1),
            Far::Few(_) => self.write(s),
        }
    }
}

// A text with the sums of its chunks.
#[derive(Clone, Copy)]
pub struct TextSums<'a> {
    pub text: &'a [u8],
    pub table: &'a Table,
    pub ghost summed: { Summed text.now table.now },
}

impl TextSums<'_> {
    // The sums of the chunk that begins at a place, where they are written.
    #[tactic(auto, using(crate::specs::Table::told))]
    fn sums_at(self, at: usize) -> Option<Sums>
        ensures { TellsSums self.entry.text.now at result }
    {
        let j = at / SIZE;
        match self.table.far {
            Far::Often if j < MOST && j * SIZE == at && at + SIZE <= self.text.len() => {
                Some(self.table.sums[j])
            }
            _ => None,
        }
    }

    // What is told of the chunk at a place.
    pub fn chunk_at(self, at: usize) -> Option<Chunk>
        ensures { TellsChunk self.entry.text.now at result }
    {
        let sums = self.sums_at(at)?;
        Some(Chunk::from(sums.body))
    }

    // A search for the partner of a round bracket at a chunk: how many are open inside the bracket behind it. None where the partner may be met
    // in it.
    pub fn round_past(self, at: usize, depth: usize) -> Option<usize>
        requires { depth ≤ at }
        ensures { TellsDepth self.entry.text.now at depth result }
    {
        let round = self.sums_at(at)?.round;
        let outer = depth.checked_sub(usize::from(round.closed))?;
        Some(outer + usize::from(round.opened))
    }

    // A search for a body at a chunk: what it has counted behind it. None where it may end in it.
    #[tactic(auto, using(crate::specs::PastLaws::counted_further, crate::specs::PastLaws::body_further))]
    pub fn body_past(self, at: usize, n: Counts) -> Option<Counts>
        requires { Counted n at }
        ensures { TellsCounts self.entry.text.now at n result }
    {
        let c = self.chunk_at(at)?;
        if misses(c, n) {
            Some(counts_past(c, n))
        } else {
            None
        }
    }
}

#[cfg(test)]
mod tests {
    use super::{Table, TextSums};

    // Four searches that go far.
    fn count_four(table: &mut Table, text: &[u8])
        requires { Summed text.now table.old }
        ensures { Summed text.now table.new }
    {
        table.count_far(text);
        table.count_far(text);
        table.count_far(text);
        table.count_far(text);
    }

    // Whether the first chunk has sums.
    fn has_sums(table: &Table, text: &[u8]) -> bool
        requires { Summed text.now table.now }
    {
        TextSums { text, table }.chunk_at(0).is_some()
    }

    // The sums are written at the sixteenth search that goes far, and not before.
    #[test]
    fn counted(rt: HostRuntime) {
        let text = [b' '; 4096];
        let mut table = Table::new();
        count_four(&mut table, &text);
        count_four(&mut table, &text);
        count_four(&mut table, &text);
        assert!(rt; !has_sums(&table, &text));
        count_four(&mut table, &text);
        assert!(rt; has_sums(&table, &text));
    }
}
