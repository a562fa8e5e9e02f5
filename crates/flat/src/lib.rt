// The search for the brace that opens a body: the first `{` that is flat, at angle and square depth 0, if no `;` is flat before it. Blocks of sixteen
// bytes in which it cannot end are passed.
#![tactic(auto)]

ghost use Rattle.std.specs.Prelude.{◌≡◌, ◌⊎◌, true, ◌+◌, ◌-◌, ◌≤◌, ◌<◌, length};
ghost use Rattle.text_rules.specs.Search.{count_after};
ghost use Rattle.source_rules.specs.Finding.{flat};
ghost use Rattle.blocks.specs.Blocks.{count_from};
ghost use Rattle.flat.specs.Body.{Counted, Halts, Passable, Reaches, Tallies};

// How many bytes are `x`, behind the byte `b`.
#[tactic(auto, unfolding(text_rules::specs::Search::count_after))]
pub fn count_after(x: u8, b: u8, n: usize) -> usize
    requires { n < 18446744073709551615 }
    ensures { (result ≡ count_after x b n) × (result ≤ n + 1) }
{
    n + usize::from(b == x)
}

// What a search for a body has counted: angle brackets that are open, and square ones that were opened and closed. Square depth may go negative, so
// what was opened and what was closed is counted apart.
#[derive(Clone, Copy, Default)]
pub struct Counts {
    pub angle: usize,
    pub opened: usize,
    pub closed: usize,
}

impl Counts {
    // Angle depth and square depth are 0.
    #[tactic(auto, unfolding(source_rules::specs::Finding::flat))]
    fn is_flat(self) -> bool
        ensures { result ≡ flat self.angle self.opened self.closed }
    {
        self.angle == 0 && self.opened == self.closed
    }

    // Whether a block closes fewer square brackets than are open, or opens fewer than were closed and never opened: square depth is not 0 in it.
    fn is_inside(self, t: Tally) -> bool
        ensures { result ≡ true → (t.closes < self.opened - self.closed) ⊎ (t.opens < self.closed - self.opened) }
    {
        t.closes < self.opened.saturating_sub(self.closed)
            || t.opens < self.closed.saturating_sub(self.opened)
    }

    // Whether a search for a body passes the whole block at a place, and the counts behind it follow from its brackets. No search ends in a block
    // that closes fewer angle or square brackets than are open, nor in one without `{` and `;`. Where it closes more angle brackets than are open,
    // some `>` lowers nothing, and with a `<` behind that one the numbers would not tell the depth.
    fn passes(self, s: &[u8], at: usize, t: Tally) -> bool
        requires { (at + 16 ≤ length s.now) × Tallies s.now at t }
        ensures { result ≡ true → Passable s.now at 16 self }
    {
        if t.downs < self.angle {
            return true;
        }
        if self.angle < t.downs && t.ups != 0 {
            return false;
        }
        if self.is_inside(t) {
            return true;
        }
        blocks::lacks(s, at, b'{') && blocks::lacks(s, at, b';')
    }

    // The counts behind a block.
    fn behind(self, t: Tally) -> Counts
        requires angle { self.angle + t.ups < 18446744073709551616 }
        requires opened { self.opened + t.opens < 18446744073709551616 }
        requires closed { self.closed + t.closes < 18446744073709551616 }
        ensures { result ≡ record { angle = self.angle + t.ups - t.downs; opened = self.opened + t.opens; closed = self.closed + t.closes } }
    {
        Counts {
            angle: (self.angle + t.ups).saturating_sub(t.downs),
            opened: self.opened + t.opens,
            closed: self.closed + t.closes,
        }
    }
}

// What a search for a body meets up to a place: the brace, a `;` that ends it, with the place behind that, or nothing, with the counts that it has
// there. Nothing rests on the place behind a `;` but time.
#[derive(Clone, Copy)]
pub enum Reached {
    Brace(usize),
    Ended(usize),
    Further(Counts),
}

// The brace that opens a body, sought from one place up to another: the first one at angle and square depth 0, if no `;` stands there before it.
// A `;` inside, as in `[u8; 4]`, ends nothing. Byte by byte.
// Kept: the part and the counts are parameters here and below. Each function gives another part, or other counts, to the one that it calls.
fn body_bytes(s: &[u8], from: usize, to: usize, n: Counts) -> Reached
    requires { (from ≤ to) × (to ≤ length s.now) × Counted n from }
    ensures { Reaches s.now from to n result }
{
    let mut m = n;
    for at in from..to {
        match s[at] {
            b'<' => m.angle += 1,
            b'>' => m.angle = m.angle.saturating_sub(1),
            b'[' => m.opened += 1,
            b']' => m.closed += 1,
            b'{' if m.is_flat() => return Reached::Brace(at),
            b';' if m.is_flat() => return Reached::Ended(at + 1),
            _ => {}
        }
    }
    Reached::Further(m)
}

// How many `<`, `>`, `[` and `]` a block has.
#[derive(Clone, Copy)]
struct Tally {
    ups: usize,
    downs: usize,
    opens: usize,
    closes: usize,
}

// How many bytes of a block are `x`. Few blocks have brackets of each kind, and to look for one is shorter than to count. Counts that follow each
// other without a test between them are mixed by the compiler, and take as long as byte by byte.
#[tactic(auto, using(crate::specs::BlockLaws::count_lacking))]
fn count_asked(s: &[u8], at: usize, x: u8) -> usize
    requires { at + 16 ≤ length s.now }
    ensures count { result ≡ count_from x s.now at 16 }
    ensures most { result ≤ 16 }
{
    if blocks::lacks(s, at, x) {
        0
    } else {
        blocks::count(s, at, x)
    }
}

fn tallied(s: &[u8], at: usize) -> Tally
    requires { at + 16 ≤ length s.now }
    ensures tallies { Tallies s.now at result }
    ensures ups_most { result.ups ≤ 16 }
    ensures opens_most { result.opens ≤ 16 }
    ensures closes_most { result.closes ≤ 16 }
{
    Tally {
        ups: count_asked(s, at, b'<'),
        downs: count_asked(s, at, b'>'),
        opens: count_asked(s, at, b'['),
        closes: count_asked(s, at, b']'),
    }
}

// A place that a search for a body has come to, and the counts that it has there.
#[derive(Clone, Copy)]
struct Halt {
    at: usize,
    counts: Counts,
}

// Past whole blocks in which the search cannot end.
fn body_blocks(s: &[u8], from: usize, to: usize, n: Counts) -> Halt
    requires { (from ≤ to) × (to ≤ length s.now) × Counted n from }
    ensures { Halts s.now from to n result }
{
    let mut counts = n;
    for at in (from..to).step_by(blocks::WIDTH) {
        if to - at < blocks::WIDTH {
            return Halt { at, counts };
        }
        let t = tallied(s, at);
        if !counts.passes(s, at, t) {
            return Halt { at, counts };
        }
        counts = counts.behind(t);
    }
    Halt { at: to, counts }
}

// The bytes that are read one by one where a block cannot be passed, before the next is tested: a text of such blocks loses little by the tests.
const STRETCH: usize = 1024;

// The search for a body where it is long: by blocks as far as they can be passed, then a stretch of bytes, and so on. Blocks and bytes have a loop
// each: a byte of a block that is read in the same loop keeps the compiler from reading the sixteen at once.
fn body_further(s: &[u8], from: usize, to: usize, n: Counts) -> Reached
    requires { (from ≤ to) × (to ≤ length s.now) × Counted n from }
    ensures { Reaches s.now from to n result }
{
    let mut at = from;
    let mut counts = n;
    // Kept: a turn passes any number of blocks and then a stretch of bytes, so no `for` counts the turns.
    while at < to {
        let q = body_blocks(s, at, to, counts);
        let stop = q.at.saturating_add(STRETCH).min(to);
        let met = body_bytes(s, q.at, stop, q.counts);
        match met {
            Reached::Further(m) => {
                at = stop;
                counts = m;
            }
            ended => return ended,
        }
    }
    Reached::Further(counts)
}

// The brace that opens a body, sought from one place up to another. Most searches are short, and end before a block is looked at.
pub fn body_before(s: &[u8], from: usize, to: usize, n: Counts) -> Reached
    requires { (from ≤ to) × (to ≤ length s.now) × Counted n from }
    ensures { Reaches s.now from to n result }
{
    let near = from.saturating_add(blocks::WIDTH).min(to);
    let met = body_bytes(s, from, near, n);
    match met {
        Reached::Further(m) => body_further(s, near, to, m),
        ended => ended,
    }
}
