// Texts and numbers written straight into the output. Each method puts its own bytes from the writer's place on, moves the place behind them and
// changes no other byte. Each length is known before anything is written, so a caller can refuse an output that is too short and leave it as it was.
#![tactic(auto)]

ghost use Rattle.std.specs.Prelude.{◌≡◌, ◌+◌, ◌<◌, ◌≤◌, max, eqb, length, replicate};
ghost use Rattle.text_rules.specs.Bytes.{if◌then◌otherwise◌};
ghost use Rattle.text_rules.specs.Classes.{space, tab};
ghost use Rattle.text_rules.specs.Decimal.{decimal};
ghost use Rattle.gate_rules.specs.Check.{spaced};
ghost use Rattle.gate_rules.specs.Report.{justified};
ghost use Rattle.listing.specs.Writes.{Room, Writes};
ghost use Rattle.listing.specs.Texts.{located, located_length, regression_count};

// How many lines there are, and the bytes of all of them.
#[derive(Clone, Copy, Default)]
pub struct Size {
    pub count: usize,
    pub bytes: usize,
}

impl Size {
    // Together with the lines of another size.
    pub fn plus(self, more: Size) -> Size
        requires count_fits { self.count + more.count < 18446744073709551616 }
        requires bytes_fit { self.bytes + more.bytes < 18446744073709551616 }
        ensures count { result.count ≡ self.count + more.count }
        ensures bytes { result.bytes ≡ self.bytes + more.bytes }
    {
        Size {
            count: self.count + more.count,
            bytes: self.bytes + more.bytes,
        }
    }
}

// An output, and the place where the next byte goes.
#[derive(Drop)]
pub struct Writer<'a> {
    pub out: &'a mut [u8],
    pub at: usize,
}

impl<'a> Writer<'a> {
    // The bytes of a text.
    pub fn text(&mut self, text: &[u8])
        requires { Room text.now self.old }
        ensures { Writes text.now self.old self.new }
    {
        // Kept: `copy_from_slice` calls memmove, a name that the archive for C would need from outside.
        for (i, b) in text.iter().enumerate() {
            self.out[self.at + i] = *b;
        }
        self.at += text.len();
    }

    // A text with a space for each tab.
    pub fn spaced(&mut self, key: &[u8])
        requires { Room (spaced key.now) self.old }
        ensures { Writes (spaced key.now) self.old self.new }
    {
        for (i, b) in key.iter().enumerate() {
            self.out[self.at + i] = untabbed(*b);
        }
        self.at += key.len();
    }

    // Spaces, `count` of them.
    pub fn spaces(&mut self, count: usize)
        requires { Room (replicate count space) self.old }
        ensures { Writes (replicate count space) self.old self.new }
    {
        let end = self.at + count;
        self.out[self.at..end].fill(b' ');
        self.at = end;
    }

    // A number in decimal. Its digits are written from the last to the first, as division gives them.
    pub fn number(&mut self, n: u64)
        requires { Room (decimal n) self.old }
        ensures { Writes (decimal n) self.old self.new }
    {
        let end = self.at + digits(n);
        let mut rest = n;
        for last in (self.at..end).rev() {
            self.out[last] = b'0' + (rest % 10) as u8;
            rest /= 10;
        }
        self.at = end;
    }

    // A number, right-justified to at least `width` columns.
    #[tactic(auto, unfolding(gate_rules::specs::Report::justified), using(crate::specs::Writes::writes_then))]
    pub fn justified(&mut self, width: usize, n: u64)
        requires { Room (justified width (decimal n)) self.old }
        ensures { Writes (justified width (decimal n)) self.old self.new }
    {
        self.spaces(width.saturating_sub(digits(n)));
        self.number(n);
    }

    // path:line name
    pub fn location(&mut self, path: &[u8], line: u32, name: &[u8])
        requires { Room (located path.now line name.now) self.old }
        ensures { Writes (located path.now line name.now) self.old self.new }
    {
        self.text(path);
        self.text(b":");
        self.number(u64::from(line));
        self.text(b" ");
        self.text(name);
    }

    // The first line of a verdict with regressions.
    pub fn counted(&mut self, n: u64)
        requires { Room (regression_count n) self.old }
        ensures { Writes (regression_count n) self.old self.new }
    {
        self.text(b"complexity: ");
        self.number(n);
        self.text(b" regressions\n");
    }
}

// A space for a tab.
fn untabbed(b: u8) -> u8
    ensures { result ≡ (if eqb b tab then space otherwise b) }
{
    if b == b'\t' { b' ' } else { b }
}

// How many digits a number has in decimal.
pub fn digits(n: u64) -> usize
    ensures { (result ≡ length (decimal n)) × (1 ≤ result) × (result ≤ 20) }
{
    // Most numbers of a listing have one digit, which needs no logarithm.
    if n < 10 {
        return 1;
    }
    n.ilog10() as usize + 1
}

// The bytes of a right-justified number: the width, or all its digits where they are more.
pub fn justified_length(width: usize, n: u64) -> usize
    ensures { result ≡ max width (length (decimal n)) }
{
    width.max(digits(n))
}

// The bytes of path:line name.
pub fn location_length(path: &[u8], line: u32, name: &[u8]) -> usize
    requires { length path.now + length name.now ≤ 4294967296 }
    ensures { result ≡ located_length path.now line name.now }
{
    path.len() + 1 + digits(u64::from(line)) + 1 + name.len()
}
