// Bytes of a text are passed, those that pass a test, or any, and the lines that end among them are counted. Sixteen bytes are tested at once
// where they can be.
#![tactic(auto)]

ghost use Rattle.std.specs.Prelude.{◌≡◌, true, ◌+◌, ◌≤◌, ◌<◌, length, get_or};
ghost use Rattle.text_rules.specs.Classes.{lf};
ghost use Rattle.text_rules.specs.Search.{count_after};
ghost use Rattle.blocks.specs.Blocks.{count_from};
ghost use Rattle.passing.specs.Passing.{Any, Passed};

// A place, and its line.
// Kept: that no line is further than its place stands in contracts. In the type it would stand in each law that names a place and a line.
#[derive(Clone, Copy)]
pub struct Spot {
    pub at: usize,
    pub line: usize,
}

impl Spot {
    // Behind the block that stands here.
    fn behind_block(self, s: &[u8]) -> Spot
        requires inside { self.at + 16 ≤ length s.now }
        requires line { self.line ≤ self.at + 1 }
        ensures { result ≡ record { at = self.at + 16; line = self.line + count_from lf s.now self.at 16 } }
    {
        Spot {
            at: self.at + blocks::WIDTH,
            line: self.line + blocks::count(s, self.at, b'\n'),
        }
    }

    // Behind the byte that stands here.
    fn behind_byte(self, s: &[u8]) -> Spot
        requires inside { self.at < length s.now }
        requires line { self.line ≤ self.at + 1 }
        ensures { result ≡ record { at = self.at + 1; line = count_after lf (get_or s.now self.at 0) self.line } }
    {
        Spot {
            at: self.at + 1,
            line: flat::count_after(b'\n', s[self.at], self.line),
        }
    }

    // Past whole blocks each byte of which passes a test.
    fn pass_blocks<F: Fn(u8) -> bool>(self, s: &[u8], to: usize, test: F) -> Spot
        requires inside { to ≤ length s.now }
        requires line { self.line ≤ self.at + 1 }
        requires callable { F.IsAlwaysCallable test }
        ensures { Passed (λ b. F.post test b true) s.now self.at self.line to result }
    {
        let mut spot = self;
        for at in (self.at..to).step_by(blocks::WIDTH) {
            if to - at < blocks::WIDTH || !blocks::passes(s, at, &test) {
                return spot;
            }
            spot = spot.behind_block(s);
        }
        spot
    }

    // Past bytes that pass a test.
    fn pass_bytes<F: Fn(u8) -> bool>(self, s: &[u8], to: usize, test: F) -> Spot
        requires inside { to ≤ length s.now }
        requires line { self.line ≤ self.at + 1 }
        requires callable { F.IsAlwaysCallable test }
        ensures { Passed (λ b. F.post test b true) s.now self.at self.line to result }
    {
        let mut spot = self;
        for at in self.at..to {
            if !test(s[at]) {
                return spot;
            }
            spot = spot.behind_byte(s);
        }
        spot
    }

    // The next byte that fails a test, or the given place. Blocks and bytes have a loop each: in one loop for both the compiler reads the first byte
    // of a block by itself, and no longer the sixteen at once. The block at which the first loop ends has such a byte, so the second is short.
    pub fn pass_while<F: Fn(u8) -> bool>(self, s: &[u8], to: usize, test: F) -> Spot
        requires inside { to ≤ length s.now }
        requires line { self.line ≤ self.at + 1 }
        requires callable { F.IsAlwaysCallable test }
        ensures { Passed (λ b. F.post test b true) s.now self.at self.line to result }
    {
        self.pass_blocks(s, to, &test).pass_bytes(s, to, &test)
    }

    // A place further on, with the lines counted.
    pub fn pass_all(self, s: &[u8], to: usize) -> Spot
        requires { (to ≤ length s.now) × (self.line ≤ self.at + 1) }
        ensures { Passed Any s.now self.at self.line to result }
    {
        self.pass_while(s, to, |_| true)
    }
}
