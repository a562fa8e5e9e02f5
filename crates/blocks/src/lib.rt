// Sixteen bytes of a text, tested at once: the compiler makes a few instructions of each loop here, so a text is passed over by blocks as long as
// nothing begins in them. A byte of the block that its caller read before keeps the compiler from that, so callers test blocks in a loop of their own.
#![tactic(auto)]

ghost use Rattle.std.specs.Prelude.{◌≡◌, ℕ, true, ◌+◌, ◌≤◌, ◌<◌, length, get_or, drop};
ghost use Rattle.text_rules.specs.Search.{bytes_before};
ghost use Rattle.blocks.specs.Blocks.{Every, Lacks, count_from};

// The bytes of a block.
pub const WIDTH: usize = 16;

// Whether each byte of a block passes a test. Bytes behind one that fails are tested too, so that the compiler tests all at once.
fn every<F: Fn(u8) -> bool>(block: &[u8], test: F) -> bool
    requires { F.IsAlwaysCallable test }
    ensures { result ≡ true → (k : ℕ) → k < length block.now → F.post test (get_or block.now k 0) true }
{
    let mut all = true;
    for b in block {
        all &= test(*b);
    }
    all
}

// Whether each byte of the block at a place passes a test.
pub fn passes<F: Fn(u8) -> bool>(s: &[u8], at: usize, test: F) -> bool
    requires inside { at + 16 ≤ length s.now }
    requires callable { F.IsAlwaysCallable test }
    ensures { result ≡ true → Every (λ b. F.post test b true) s.now at 16 }
{
    every(&s[at..at + WIDTH], test)
}

// Whether no byte of the block at a place is `x`.
pub fn lacks(s: &[u8], at: usize, x: u8) -> bool
    requires { at + 16 ≤ length s.now }
    ensures { result ≡ true → Lacks x s.now at 16 }
{
    passes(s, at, |b| b != x)
}

// How many bytes of the block at a place are `x`.
pub fn count(s: &[u8], at: usize, x: u8) -> usize
    requires { at + 16 ≤ length s.now }
    ensures { (result ≡ count_from x s.now at 16) × (result ≤ 16) }
{
    let mut n: u8 = 0;
    for b in &s[at..at + WIDTH] {
        n += u8::from(*b == x);
    }
    usize::from(n)
}

// Past the blocks from a place on each byte of which passes a test.
pub fn past_while<F: Fn(u8) -> bool>(s: &[u8], from: usize, test: F) -> usize
    requires inside { from ≤ length s.now }
    requires callable { F.IsAlwaysCallable test }
    ensures low { from ≤ result }
    ensures high { result ≤ length s.now }
    ensures passed { (k : ℕ) → from ≤ k → k < result → F.post test (get_or s.now k 0) true }
{
    let mut at = from;
    // Kept: blocks are passed in a loop that asks once whether one fits. A range of steps asks twice, at each block, and costs a third more.
    while WIDTH <= s.len() - at && passes(s, at, &test) {
        at += WIDTH;
    }
    at
}

// Past the blocks of ASCII from a place on. DEL, 127, counts as beyond: the compiler makes more instructions of a test of the highest bit.
pub fn past_ascii(s: &[u8], from: usize) -> usize
    requires { from ≤ length s.now }
    ensures low { from ≤ result }
    ensures high { result ≤ length s.now }
    ensures ascii { (k : ℕ) → from ≤ k → k < result → get_or s.now k 0 < 128 }
{
    past_while(s, from, |b| b < 127)
}

// Past the blocks from a place on that have no `x`.
pub fn past(s: &[u8], from: usize, x: u8) -> usize
    requires { from ≤ length s.now }
    ensures { (result ≤ length s.now)
        × (from + bytes_before x (drop from s.now) ≡ result + bytes_before x (drop result s.now))
        × (from ≤ result) }
{
    past_while(s, from, |b| b != x)
}
