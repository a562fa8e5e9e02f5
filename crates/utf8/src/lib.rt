// Well-formed UTF-8 by the Unicode Standard's table 3-7, and Unicode white space at the two ends of a text.
// ASCII bytes are passed sixteen at once where they can be. Any other byte begins a character that is read whole, so nothing is awaited between two
// turns of a loop.
#![tactic(auto)]

ghost use Rattle.std.specs.Prelude.{◌≡◌, [], ◌∷◌, ◌≤◌, ◌<◌, length, get_or, drop};
ghost use Rattle.text_rules.specs.Search.{part};
ghost use Rattle.text_rules.specs.Utf8.{◌to◌, is_utf8, within};
ghost use Rattle.text_rules.specs.WhiteSpace.{text_end, white_end, white_length};
ghost use Rattle.utf8.specs.Awaits.{Character, Row, some_length};

use seek::byte;

// What a first byte asks of those that follow it: `count` bytes, the first of them from `low` to `high` and the others from 0x80 to 0xBF.
#[derive(Clone, Copy)]
struct Awaited {
    count: u8,
    low: u8,
    high: u8,
}

fn asks(count: u8, low: u8, high: u8) -> Option<Awaited>
    ensures { result ≡ Some (record { count = count; low = low; high = high }) }
{
    Some(Awaited { count, low, high })
}

// The row of the table for a first byte that is not ASCII; none where it is ill-formed.
#[tactic(auto, using(std::proofs::lemmas::Bool::Decides::nat_tests), unfolding(text_rules::specs::Utf8::follow, text_rules::specs::Utf8::within))]
fn follow(b: u8) -> Option<Awaited>
    requires { 128 ≤ b }
    ensures { Row b result }
{
    match b {
        0xC2..=0xDF => asks(1, 0x80, 0xBF),
        0xE0 => asks(2, 0xA0, 0xBF),
        0xE1..=0xEC | 0xEE..=0xEF => asks(2, 0x80, 0xBF),
        0xED => asks(2, 0x80, 0x9F),
        0xF0 => asks(3, 0x90, 0xBF),
        0xF1..=0xF3 => asks(3, 0x80, 0xBF),
        0xF4 => asks(3, 0x80, 0x8F),
        _ => None,
    }
}

// Whether a byte is in the range from `low` to `high`.
#[tactic(auto, using(std::proofs::lemmas::Bool::Decides::nat_tests), unfolding(text_rules::specs::Utf8::within))]
fn within(b: u8, low: u8, high: u8) -> bool
    ensures { result ≡ within b (low to high) }
{
    (low..=high).contains(&b)
}

// The length of the character that begins at a place, where no ASCII byte stands; none where it is ill-formed or the text ends in it.
fn wide_length(s: &[u8], at: usize) -> Option<usize>
    requires { (at < length s.now) × (128 ≤ get_or s.now at 0) }
    ensures { Character s.now at result }
{
    let asked = follow(s[at])?;
    if !within(byte(s, at + 1), asked.low, asked.high) {
        return None;
    }
    if asked.count == 1 {
        return Some(2);
    }
    if !within(byte(s, at + 2), 0x80, 0xBF) {
        return None;
    }
    if asked.count == 2 {
        return Some(3);
    }
    if !within(byte(s, at + 3), 0x80, 0xBF) {
        return None;
    }
    Some(4)
}

// Past the blocks of ASCII that begin at a place.
fn ascii_blocks(s: &[u8], from: usize) -> usize
    requires { from ≤ length s.now }
    ensures { (from ≤ result) × (result ≤ length s.now) × (is_utf8 (drop from s.now) ≡ is_utf8 (drop result s.now)) }
{
    blocks::past_ascii(s, from)
}

// A place in a text, and the last place where a block was asked.
#[derive(Clone, Copy)]
struct Place {
    at: usize,
    asked: usize,
}

impl Place {
    // Past an ASCII byte, and past the blocks of ASCII behind it where none was asked in the last sixteen bytes.
    fn past_ascii(self, s: &[u8]) -> Place
        requires { (self.asked ≤ self.at) × (self.at < length s.now) × (get_or s.now self.at 0 < 128) }
        ensures { (self.at < result.at)
            × (result.asked ≤ result.at)
            × (result.at ≤ length s.now)
            × (is_utf8 (drop self.at s.now) ≡ is_utf8 (drop result.at s.now)) }
    {
        let next = self.at + 1;
        if next - self.asked < blocks::WIDTH {
            return Place { at: next, ..self };
        }
        let end = ascii_blocks(s, next);
        Place {
            at: end,
            asked: end,
        }
    }
}

// Whether a text is well-formed UTF-8.
pub fn is_utf8(s: &[u8]) -> bool
    ensures { result ≡ is_utf8 s.now }
{
    let from = ascii_blocks(s, 0);
    let mut place = Place {
        at: from,
        asked: from,
    };
    // Kept: characters are of several lengths, so no `for` counts the steps.
    while place.at < s.len() {
        if s[place.at] < 128 {
            place = place.past_ascii(s);
        } else {
            match wide_length(s, place.at) {
                Some(n) => place.at += n,
                None => return false,
            }
        }
    }
    true
}

// Whether the part from `a` to `e` is well-formed UTF-8.
pub fn is_utf8_part(s: &[u8], a: usize, e: usize) -> bool
    requires { (a ≤ e) × (e ≤ length s.now) }
    ensures { result ≡ is_utf8 (part a e s.now) }
{
    is_utf8(&s[a..e])
}

// The length of the character of white space that three given bytes begin; none where they begin none.
#[tactic(auto, using(std::proofs::lemmas::Bool::Decides::nat_tests), unfolding(text_rules::specs::WhiteSpace::white_length, text_rules::specs::WhiteSpace::is_wide_space, text_rules::specs::Search::opens, text_rules::specs::Utf8::within))]
fn white_of(b: u8, c: u8, d: u8) -> Option<usize>
    ensures { result ≡ some_length (white_length (b ∷ c ∷ d ∷ [])) }
{
    match (b, c, d) {
        (9..=13 | b' ', _, _) => Some(1),
        (0xC2, 0x85 | 0xA0, _) => Some(2),
        (0xE1, 0x9A, 0x80) => Some(3),
        (0xE2, 0x80, 0x80..=0x8A | 0xA8 | 0xA9 | 0xAF) => Some(3),
        (0xE2, 0x81, 0x9F) => Some(3),
        (0xE3, 0x80, 0x80) => Some(3),
        _ => None,
    }
}

// The length of the character of white space at a place; none where none is, and past the end.
pub fn white_length(s: &[u8], at: usize) -> Option<usize>
    ensures { result ≡ some_length (white_length (drop at s.now)) }
{
    if s.len() <= at {
        return None;
    }
    white_of(s[at], byte(s, at + 1), byte(s, at + 2))
}

// The place of the first byte that is not of white space; the text's length where there is none.
pub fn white_end(s: &[u8]) -> usize
    ensures { (result ≡ white_end 0 0 s.now) × (result ≤ length s.now) }
{
    let mut at = 0;
    // Kept: characters of white space are of several lengths, so no `for` counts the steps.
    while let Some(n) = white_length(s, at) {
        at += n;
    }
    at
}

// The place behind the last byte that is not of white space; 0 where there is none.
pub fn text_end(s: &[u8]) -> usize
    ensures { (result ≡ text_end 0 0 0 s.now) × (result ≤ length s.now) }
{
    let mut end = 0;
    let mut at = 0;
    // Kept: characters of white space are of several lengths, so no `for` counts the steps.
    while at < s.len() {
        match white_length(s, at) {
            Some(n) => at += n,
            None => {
                at += 1;
                end = at;
            }
        }
    }
    end
}
