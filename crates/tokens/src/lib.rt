// The tokens that blanking passes over, comments and literals: where one ends that opens at a place of a text.
// A `Cursor` is such a place, by value; each step takes one and hands back the next, or none where nothing of its kind stands here. The byte here
// says which rules may fit, so that one that begins no token is looked at once.
#![tactic(auto)]

ghost use Rattle.std.specs.Prelude.{◌≡◌, false, ◌∷◌, ◌+◌, ◌≤◌, ◌<◌, length, get_or, drop};
ghost use Rattle.text_rules.specs.Bytes.{◌or_else◌};
ghost use Rattle.text_rules.specs.Classes.{apostrophe, lf, slash};
ghost use Rattle.text_rules.specs.Search.{bytes_before};
ghost use Rattle.source_rules.specs.Blank.{block_length, block_token, char_token, escape_token, hashes, line_token, raw_length, raw_letters, raw_token, string_length, token_length};
ghost use Rattle.tokens.specs.Steps.{Found, Steps};

use seek::{byte, byte_before};

pub const LF: u8 = b'\n';

pub const QUOTE: u8 = b'"';

pub const HASH: u8 = b'#';

pub const APOSTROPHE: u8 = b'\'';

pub const SLASH: u8 = b'/';

const STAR: u8 = b'*';

const BACKSLASH: u8 = b'\\';

// A place in a text.
// Kept: the text stands beside it. Contracts compare two places of one text, and with a text in each they would have to say that it is the same.
#[derive(Clone, Copy)]
pub struct Cursor {
    pub at: usize,
}

impl Cursor {
    // Past the hashes.
    fn hashes(self, s: &[u8]) -> Cursor
        requires { self.at ≤ length s.now }
        ensures { Steps s.now self.at (hashes (drop self.at s.now)) result.at }
    {
        Cursor {
            at: seek::end_while(s, self.at, |b| b == HASH),
        }
    }

    // Past a line comment whose slashes stand before.
    fn line_body(self, s: &[u8]) -> Cursor
        requires { self.at ≤ length s.now }
        ensures { Steps s.now self.at (bytes_before lf (drop self.at s.now)) result.at }
    {
        let from = blocks::past(s, self.at, LF);
        Cursor {
            at: seek::end_while(s, from, |b| b != LF),
        }
    }

    // Past a block comment whose opening mark stands before.
    fn block_body(self, s: &[u8]) -> Cursor
        requires { self.at ≤ length s.now }
        ensures { Steps s.now self.at (block_length 0 0 (drop self.at s.now)) result.at }
    {
        let mut depth: usize = 0;
        let mut prev: u8 = 0;
        for at in self.at..s.len() {
            let b = s[at];
            match (prev, b) {
                (SLASH, STAR) => {
                    depth += 1;
                    prev = 0;
                }
                (STAR, SLASH) if depth == 0 => return Cursor { at: at + 1 },
                (STAR, SLASH) => {
                    depth -= 1;
                    prev = 0;
                }
                _ => prev = b,
            }
        }
        Cursor { at: s.len() }
    }

    // Past a raw string with `n` hashes whose opening quote stands before. Each run of hashes stands after one quote, so it is counted once.
    fn raw_body(self, s: &[u8], n: usize) -> Cursor
        requires { self.at ≤ length s.now }
        ensures { Steps s.now self.at (raw_length n (drop self.at s.now)) result.at }
    {
        for at in self.at..s.len() {
            if s[at] == QUOTE {
                let behind = at + 1;
                let h = Cursor { at: behind }.hashes(s);
                if n <= h.at - behind {
                    return Cursor { at: behind + n };
                }
            }
        }
        Cursor { at: s.len() }
    }

    // Past a string whose opening quote stands before.
    fn string_body(self, s: &[u8]) -> Cursor
        requires { self.at ≤ length s.now }
        ensures { Steps s.now self.at (string_length false (drop self.at s.now)) result.at }
    {
        let mut skip = false;
        for at in self.at..s.len() {
            let b = s[at];
            if skip {
                skip = false;
            } else if b == QUOTE {
                return Cursor { at: at + 1 };
            } else {
                skip = b == BACKSLASH;
            }
        }
        Cursor { at: s.len() }
    }

    // Past the comment that a slash here begins; none where it begins none.
    fn comment(self, s: &[u8]) -> Option<Cursor>
        requires { (self.at < length s.now) × (get_or s.now self.at 0 ≡ slash) }
        ensures { Found s.now self.at (line_token (drop self.at s.now) or_else block_token (drop self.at s.now)) result }
    {
        let at = self.at;
        match byte(s, at + 1) {
            SLASH => Some(Cursor { at: at + 2 }.line_body(s)),
            STAR => Some(Cursor { at: at + 2 }.block_body(s)),
            _ => None,
        }
    }

    // Past the letters of a raw opening; none where none stand here.
    fn raw_letters(self, s: &[u8]) -> Option<Cursor>
        requires { self.at < length s.now }
        ensures { Found s.now self.at (raw_letters (drop self.at s.now)) result }
    {
        let at = self.at;
        match (s[at], byte(s, at + 1)) {
            (b'r', _) => Some(Cursor { at: at + 1 }),
            (b'b', b'r') => Some(Cursor { at: at + 2 }),
            _ => None,
        }
    }

    // Past the raw string that opens here; none where none does. What follows the letters rules out most words, so the byte before is tested last.
    fn raw_string(self, s: &[u8]) -> Option<Cursor>
        requires { self.at < length s.now }
        ensures { Found s.now self.at (raw_token (get_or (0 ∷ s.now) self.at 0) (drop self.at s.now)) result }
    {
        let letters = self.raw_letters(s)?;
        let opening = letters.hashes(s);
        if byte(s, opening.at) != QUOTE {
            return None;
        }
        if classes::is_word(byte_before(s, self.at)) {
            return None;
        }
        let body = Cursor { at: opening.at + 1 };
        Some(body.raw_body(s, opening.at - letters.at))
    }

    // Past a character literal whose second byte is a backslash; none where it is not closed in time.
    fn escape(self, s: &[u8]) -> Option<Cursor>
        requires { self.at + 2 ≤ length s.now }
        ensures { Found s.now self.at (escape_token (drop self.at s.now)) result }
    {
        let from = self.at + 2;
        let window = &s[from..(self.at + 12).min(s.len())];
        let many = seek::end_while(window, 0, |b| b != APOSTROPHE);
        if many == window.len() {
            return None;
        }
        Some(Cursor {
            at: from + many + 1,
        })
    }

    // Past the character literal that an apostrophe here opens; none where it opens none.
    fn char_literal(self, s: &[u8]) -> Option<Cursor>
        requires { (self.at < length s.now) × (get_or s.now self.at 0 ≡ apostrophe) }
        ensures { Found s.now self.at (char_token (drop self.at s.now)) result }
    {
        let at = self.at;
        if byte(s, at + 1) == BACKSLASH {
            return self.escape(s);
        }
        if byte(s, at + 2) == APOSTROPHE {
            return Some(Cursor { at: at + 3 });
        }
        None
    }

    // Past the token that opens here; none where none does.
    pub fn token(self, s: &[u8]) -> Option<Cursor>
        requires { self.at < length s.now }
        ensures { Found s.now self.at (token_length (get_or (0 ∷ s.now) self.at 0) (drop self.at s.now)) result }
    {
        match s[self.at] {
            SLASH => self.comment(s),
            b'b' | b'r' => self.raw_string(s),
            QUOTE => Some(Cursor { at: self.at + 1 }.string_body(s)),
            APOSTROPHE => self.char_literal(s),
            _ => None,
        }
    }
}
