// What some searches for a body find. Searches for the brace that opens a body, behind a list of parameters, may each read far. So those that begin
// at some places are made together, in one walk over the text. It passes a chunk in which no search begins or ends without reading it.
#![tactic(auto)]

ghost use Rattle.std.specs.Prelude.{◌≡◌, ◌≢◌, ℕ, ◌+◌, ◌≤◌, ◌<◌, length, get_or, IsFalse, IsTrue, MatchOption};
ghost use Rattle.chunks.specs.Passing.{LevelsFit, Summary};
ghost use Rattle.angles.specs.Groups.{Stands, Turns};
ghost use Rattle.bodies.specs.Bodies.{Finds, Rising};
ghost use Rattle.bodies.specs.Chain.{Chained, FitIn};
ghost use Rattle.bodies.specs.Crossing.{Missed, Narrows, crossed, depth_behind};
ghost use Rattle.bodies.specs.Quiet.{AllQuiet, Quiet, Skips};
ghost use Rattle.bodies.specs.Settling.{Behind, Settles};
ghost use Rattle.bodies.specs.Walking.{Adds, AtLevel, Begins, EndedIn, Ends, Fewer, Fresh, Kept, Rest, noted, with_searches};

use angles::Groups;
use chunks::{Chunk, TextSums};

// The most searches.
const MOST: usize = 2048;

// The levels of square brackets at which searches are noted are those up to it. The walk begins in their middle.
const TOP: usize = 4096;

// What is known of a search: nothing, that it goes on, that it finds no body, or the place of the brace that it finds.
#[derive(Clone, Copy)]
pub enum Sought {
    Unknown,
    Ongoing,
    Nothing,
    Brace(u32),
}

// The searches. Those that go on stand in chains, one for each level, the latest first: `heads` has the first of each level, and `links` what
// follows.
// Kept: numbers, not options. An index stands as one more than itself and 0 ends a chain, so one comparison tells that a chain goes on and that its
// first search is not before a boundary.
// Kept: `told` and `links` are two arrays, since `told` alone is handed out. Both have an entry for each place at which a search may begin, unknown
// and 0 before it begins, so no length stands beside them.
#[derive(Drop)]
struct Searches {
    told: [Sought; 2048],
    links: [u16; 2048],
    heads: [u16; 4097],
    pending: usize,
    low: usize,
    high: usize,
}

impl Searches {
    // None has begun.
    fn new() -> Searches
        ensures { Fresh result }
    {
        Searches {
            told: [Sought::Unknown; 2048],
            links: [0; 2048],
            heads: [0; 4097],
            pending: 0,
            low: TOP,
            high: 0,
        }
    }

    // The searches of a level that begin at a boundary or behind it end. They are taken off the front of the level's chain.
    fn settle(&mut self, level: usize, boundary: usize, told: Sought)
        requires kept { level ≤ 4096 }
        requires over { told ≢ Sought.Ongoing }
        requires fit { FitIn self.old }
        ensures fewer { Fewer self.old self.new }
        ensures settled { (at : ℕ → ℕ) → Chained at self.old → Settles at (Behind at level boundary) told self.old self.new }
    {
        let mut head = usize::from(self.heads[level]);
        // Kept: the chain tells where it ends, so no `for` counts its searches.
        while boundary < head {
            let j = head - 1;
            self.told[j] = told;
            self.heads[level] = self.links[j];
            head = usize::from(self.links[j]);
            self.pending = self.pending.saturating_sub(1);
        }
    }

    // A search begins at a level. It is put before the level's chain.
    fn note(&mut self, next: usize, level: usize)
        requires room { next < 2048 }
        requires kept { level ≤ 4096 }
        requires few { self.old.pending ≤ next }
        ensures { self.new ≡ noted self.old next level }
    {
        self.told[next] = Sought::Ongoing;
        self.links[next] = self.heads[level];
        self.heads[level] = next as u16 + 1;
        self.pending += 1;
        self.low = self.low.min(level);
        self.high = self.high.max(level);
    }

    // Fewer levels, but none at which a search is pending is left out.
    fn narrow(&mut self)
        requires low { self.old.low ≤ 4096 }
        requires high { self.old.high ≤ 4096 }
        ensures { Narrows self.old self.new }
    {
        if self.high <= self.low {
            return;
        }
        let levels = &self.heads[self.low..=self.high];
        match (first_some(levels), last_some(levels)) {
            (Some(first), Some(last)) => {
                self.high = self.low + last;
                self.low += first;
            }
            _ => self.low = self.high,
        }
    }

    // At the end of the text the searches that are pending find none.
    fn finish(&mut self)
        ensures { Rest self.old.told self.new.told }
    {
        for told in &mut self.told {
            if let Sought::Ongoing = told {
                *told = Sought::Nothing;
            }
        }
    }
}

// The first chain that holds a search, and the last one.
// Kept: the library goes through a list from its two ends by two methods, so these are two functions.
fn first_some(heads: &[u16]) -> Option<usize>
    ensures { MatchOption result ((k : ℕ) → get_or heads.now k 0 ≡ 0)
        (λ first. (first < length heads.now) × ((k : ℕ) → k < first → get_or heads.now k 0 ≡ 0)) }
{
    heads.iter().position(|head| *head != 0)
}

fn last_some(heads: &[u16]) -> Option<usize>
    ensures { MatchOption result ((k : ℕ) → get_or heads.now k 0 ≡ 0)
        (λ last. (last < length heads.now) × ((k : ℕ) → last < k → get_or heads.now k 0 ≡ 0)) }
{
    heads.iter().rposition(|head| *head != 0)
}

// A text with the sums of its chunks, and the places where searches begin, in rising order.
#[derive(Clone, Copy)]
struct Places<'a> {
    text: TextSums<'a>,
    starts: &'a [u32],
    ghost few: { length starts.now ≤ 2048 },
}

// How far the walk over a text has come: how many searches have begun, the square brackets that were opened and closed since the walk began, and the
// groups of angle brackets that are open.
// Kept: the places are lent to the walk's methods, not a field. Of a field each method that changes the walk would have to promise that it stays as
// it is, which a `&Places` says by its type.
#[derive(Drop)]
struct Walk {
    at: usize,
    next: usize,
    opened: u32,
    closed: u32,
    groups: Groups,
    searches: Searches,
}

impl Walk {
    // The level of square brackets at which the walk is, if it is kept.
    fn level(&self) -> Option<usize>
        ensures { MatchOption result ((k : ℕ) → ¬ AtLevel self.now k) (AtLevel self.now) }
    {
        let level = (2048 + self.opened as usize).checked_sub(self.closed as usize)?;
        if level <= TOP { Some(level) } else { None }
    }

    // The searches that are at depth 0 end.
    fn end_level(&mut self, told: Sought)
        requires over { told ≢ Sought.Ongoing }
        requires fit { FitIn self.old.searches }
        ensures same { self.new ≡ with_searches self.old self.new.searches }
        ensures fewer { Fewer self.old.searches self.new.searches }
        ensures settled { (at : ℕ → ℕ) → Chained at self.old.searches → Settles at (Ends self.old at) told self.old.searches self.new.searches }
    {
        if let Some(level) = self.level() {
            let boundary = self.groups.boundary();
            self.searches.settle(level, boundary, told);
        }
    }

    // The searches end that end at a byte where the walk is: at a `{` they find it, at a `;` they find none.
    fn end_at(&mut self, b: u8)
        requires small { self.old.at < 4294967292 }
        requires fit { FitIn self.old.searches }
        ensures same { self.new ≡ with_searches self.old self.new.searches }
        ensures fewer { Fewer self.old.searches self.new.searches }
        ensures ended { (at : ℕ → ℕ) → Chained at self.old.searches
            → EndedIn at (Ends self.old at) b self.old.at self.old.searches self.new.searches }
    {
        match b {
            b'{' => self.end_level(Sought::Brace(self.at as u32)),
            b';' => self.end_level(Sought::Nothing),
            _ => {}
        }
    }

    // A search begins. It is put before the chain of its level, where one is kept for it.
    fn note(&mut self)
        requires room { self.old.next < 2048 }
        requires few { self.old.searches.pending ≤ self.old.next }
        ensures { Adds self.old self.new }
    {
        if let Some(level) = self.level() {
            self.searches.note(self.next, level);
        }
        self.next += 1;
    }

    // The next search begins if its place is that of the walk.
    fn begin(&mut self, starts: &[u32])
        requires most { length starts.now ≤ 2048 }
        requires few { self.old.searches.pending ≤ self.old.next }
        ensures { Begins starts.now self.old self.new }
    {
        match starts.get(self.next) {
            Some(start) if *start as usize == self.at => self.note(),
            _ => {}
        }
    }

    // The walk past a byte: the search that begins before it is noted, those that end at it end, and its brackets are counted.
    fn step(&mut self, p: &Places)
        requires inside { self.old.at < length p.now.text.text.now }
        requires kept { Kept p.now.text.text.now p.now.starts.now self.old }
        ensures next { self.new.at ≡ self.old.at + 1 }
        ensures kept { Kept p.now.text.text.now p.now.starts.now self.new }
    {
        self.begin(p.starts);
        let b = p.text.text[self.at];
        self.end_at(b);
        self.groups.pass(b, self.next, self.at);
        self.opened += u32::from(b == b'[');
        self.closed += u32::from(b == b']');
        self.at += 1;
    }

    // The walk past the bytes before `end` that are no marks and at which no search begins. Most bytes are.
    fn skip(&mut self, p: &Places, end: usize)
        requires inside { self.old.at ≤ length p.now.text.text.now }
        requires end { end ≤ length p.now.text.text.now }
        ensures { Skips p.now.text.text.now self.old self.new }
    {
        let to = p
            .starts
            .get(self.next)
            .map_or(end, |start| end.min(*start as usize));
        self.at = quiet_end(p.text.text, self.at, to);
    }

    // The walk past a byte and the quiet ones behind it. It stops where a chunk begins.
    fn read_on(&mut self, p: &Places)
        requires inside { self.old.at < length p.now.text.text.now }
        requires kept { Kept p.now.text.text.now p.now.starts.now self.old }
        ensures further { self.old.at < self.new.at }
        ensures kept { Kept p.now.text.text.now p.now.starts.now self.new }
    {
        let end = chunks::edge_after(self.at, p.text.text.len());
        self.step(p);
        self.skip(p, end);
    }

    // Whether no search begins before a place. A search that is passed over is never noted.
    fn is_free(&self, p: &Places, to: usize) -> bool {
        p.starts
            .get(self.next)
            .is_none_or(|start| to <= *start as usize)
    }

    // Whether no pending search ends in a chunk: each has more angle brackets open than the chunk closes before its last `{` or `;`, or all of these
    // stand above the levels of the searches, or all below.
    fn is_missed(&self, c: Chunk) -> bool
        requires chunk { LevelsFit c.ends }
        requires levels { (self.now.searches.low ≤ 4096) × (self.now.searches.high ≤ 4096) }
        requires stands { Stands self.now.groups self.now.next self.now.at }
        ensures { IsTrue result → Missed c self.now }
    {
        let Some(e) = c.ends else {
            return true;
        };
        let opened = self.opened as usize;
        let closed = self.closed as usize;
        e.ended < self.groups.least(self.next, self.at)
            || 2048 + self.searches.high + closed < e.low + opened
            || e.high + opened < 2048 + self.searches.low + closed
    }

    // The walk behind a chunk. The angle brackets that it closes from before stand before those that it leaves open.
    fn pass(&mut self, c: Chunk)
        requires chunk { (c.ups ≤ 4096) × (c.opened ≤ 4096) × (c.closed ≤ 4096) }
        requires small { self.old.at + 4096 ≤ 4294967292 }
        requires opened { self.old.opened ≤ self.old.at }
        requires closed { self.old.closed ≤ self.old.at }
        requires stands { Stands self.old.groups self.old.next self.old.at }
        ensures crossed { self.new ≡ crossed c self.old self.new.groups }
        ensures turns { Turns (depth_behind c) self.old.next (self.old.at + 4096) self.old.groups self.new.groups }
    {
        self.groups.close(c.downs);
        self.groups.open(c.ups, self.next, self.at);
        self.opened += c.opened as u32;
        self.closed += c.closed as u32;
        self.at += chunks::SIZE;
    }

    // The walk from the beginning of a chunk on: behind the chunk if no search begins or ends in it.
    fn at_chunk(&mut self, p: &Places, c: Chunk)
        requires summary { Summary p.now.text.text.now self.old.at c }
        requires kept { Kept p.now.text.text.now p.now.starts.now self.old }
        ensures further { self.old.at < self.new.at }
        ensures kept { Kept p.now.text.text.now p.now.starts.now self.new }
    {
        self.searches.narrow();
        if self.is_free(p, self.at + chunks::SIZE) && self.is_missed(c) {
            self.pass(c);
        } else {
            self.read_on(p);
        }
    }

    // The walk further on. It comes to the beginning of each chunk once; elsewhere no sums are told.
    fn onward(&mut self, p: &Places)
        requires inside { self.old.at < length p.now.text.text.now }
        requires kept { Kept p.now.text.text.now p.now.starts.now self.old }
        ensures further { self.old.at < self.new.at }
        ensures kept { Kept p.now.text.text.now p.now.starts.now self.new }
    {
        match p.text.chunk_at(self.at) {
            Some(c) => self.at_chunk(p, c),
            None => self.read_on(p),
        }
    }

    // Whether all searches have begun, and none is pending.
    fn is_over(&self, p: &Places) -> bool {
        p.starts.len() <= self.next && self.searches.pending == 0
    }

    // The walk to the end of the text, or until no search is pending behind the last place.
    fn walk(&mut self, p: &Places)
        requires { Kept p.now.text.text.now p.now.starts.now self.old }
        ensures { Kept p.now.text.text.now p.now.starts.now self.new }
    {
        // Kept: a step is a chunk, or a byte and any number of quiet ones behind it. An iterator of such steps would serve this loop alone.
        while self.at < p.text.text.len() && !self.is_over(p) {
            self.onward(p);
        }
    }
}

// Whether a search may end at a byte, or brackets are counted there.
fn is_mark(b: u8) -> bool
    ensures { IsFalse result → Quiet b }
{
    matches!(b, b'<' | b'>' | b'[' | b']' | b'{' | b';')
}

// The first mark of some bytes.
fn first_mark(s: &[u8]) -> Option<usize>
    ensures { MatchOption result (AllQuiet s.now 0 (length s.now)) (λ mark. (mark < length s.now) × AllQuiet s.now 0 mark) }
{
    s.iter().position(|b| is_mark(*b))
}

// Past the bytes from one place up to another that are no marks.
fn quiet_end(s: &[u8], from: usize, to: usize) -> usize
    requires from { from ≤ length s.now }
    requires to { to ≤ length s.now }
    ensures at { (from ≤ result) × (result ≤ length s.now) }
    ensures quiet { AllQuiet s.now from result }
{
    if to <= from {
        return from;
    }
    match first_mark(&s[from..to]) {
        Some(mark) => from + mark,
        None => to,
    }
}

// For each of some places in rising order what a search for a body that begins there finds, where it is known. Entries behind the last place are
// unknown.
pub fn note_bodies(text: TextSums, starts: &[u32]) -> [Sought; 2048]
    requires most { length starts.now ≤ 2048 }
    requires rising { Rising text.text.now starts.now (length starts.now) }
    ensures { Finds text.entry.text.now starts.now (length starts.now) result }
{
    let Some(first) = starts.first() else {
        return [Sought::Unknown; MOST];
    };
    let end = text.text.len();
    if 4294967292 < end {
        return [Sought::Unknown; MOST];
    }
    let mut walk = Walk {
        at: *first as usize,
        next: 0,
        opened: 0,
        closed: 0,
        groups: Groups::new(),
        searches: Searches::new(),
    };
    walk.walk(&Places { text, starts });
    if end <= walk.at {
        walk.searches.finish();
    }
    walk.searches.told
}
