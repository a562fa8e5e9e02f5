// The functions of a blanked text, found and measured one after another.
// The text is gone through to its end, bodies and test spans included: a test span may begin inside a body and reach past it, so no body is jumped
// over. Bytes at which nothing can begin are passed in blocks of sixteen.
#![tactic(auto)]

ghost use Rattle.std.specs.Prelude.{◌≡◌, true, false, ◌+◌, ◌≤◌, ◌<◌, length, get_or, drop};
ghost use Rattle.std.specs.Iterator.{item_count};
ghost use Rattle.std.proofs.Math.Option.{none};
ghost use Rattle.text_rules.specs.Classes.{lf};
ghost use Rattle.text_rules.specs.Search.{count_after};
ghost use Rattle.source_rules.specs.Finding.{function_at};
ghost use Rattle.source_rules.specs.TextScan.{functions};
ghost use Rattle.source.specs.Bytes.{bytes_of};
ghost use Rattle.source.specs.Cursors.{Closed, FoundAt, Measures, Quieter, Ready, SpanAt, Stepped, Turned, moved_to, ready_prop, remaining, sought_at, state, with_name};

use passing::Spot;
use search::Braces;
use text::{Brackets, Text};

mod text;

// Where the search for functions stands in a text.
#[derive(Clone, Copy)]
pub struct Cursor<'a> {
    // the text, and what was learnt of it
    text: Text<'a>,
    // the byte to look at next, and its line
    pub at: usize,
    pub line: usize,
    // the end of the last test span, and of the last body
    pub span_end: usize,
    pub resume: usize,
    // What was sought and not found is not sought again: no test span begins from `at` up to the first place, no name that ends from the second up
    // to the third is a function's.
    pub spanless: usize,
    pub barren_from: usize,
    pub barren_to: usize,
    ghost ready: { Ready (bytes_of text) (state (bytes_of text) at line span_end resume spanless barren_from barren_to) } by { ready_prop _ _ },
}

// A function: where its name stands in the text, and what is measured.
#[derive(Clone, Copy)]
pub struct Found {
    pub name_at: usize,
    pub name_len: usize,
    pub line: usize,
    pub lines: usize,
    pub cyclomatic: usize,
    pub nesting: usize,
    pub params: usize,
}

// The function on a line whose name stands from one place up to another.
fn found_at(s: &[u8], line: usize, from: usize, to: usize, b: Brackets) -> Found
    requires { (from ≤ to) × Closed s.now to b }
    ensures { FoundAt s.now line from to b result }
{
    let params_from = b.opened + 1;
    let params_to = b.closed;
    let params = params::count_params(&s[params_from..params_to]);
    Found {
        name_at: from,
        name_len: to - from,
        line,
        lines: b.measures.lines,
        cyclomatic: b.measures.cyclomatic,
        nesting: b.measures.nesting,
        params,
    }
}

// The next byte at which a test span or a function may begin, or the end of the text. In a test span neither is sought, in a body no function.
fn quiet_end(s: &[u8], from: Spot, span_end: usize, resume: usize) -> Spot
    requires { (from.at ≤ length s.now) × (from.line ≤ from.at + 1) }
    ensures { Quieter s.now from.at from.line span_end resume result }
{
    let n = s.len();
    let a = from.pass_all(s, span_end.min(n));
    let b = a.pass_while(s, resume.min(n), |b| b != b'#');
    b.pass_while(s, n, |b| b != b'#' && b != b'f')
}

impl<'a> Cursor<'a> {
    ghost use Rattle.source.specs.View.{state_of};

    // The start of a text.
    pub fn new(bytes: &'a [u8]) -> Cursor<'a>
        ensures text { (state_of result).text ≡ bytes.now }
        ensures all { remaining bytes.now (state_of result) ≡ functions bytes.now }
        ensures ready { Ready bytes.now (state_of result) }
    {
        Cursor {
            text: Text::new(bytes),
            at: 0,
            line: 1,
            span_end: 0,
            resume: 0,
            spanless: 0,
            barren_from: 0,
            barren_to: 0,
        }
    }

    // The start of another text.
    // Kept: `new` makes the value, and this sets its fields one by one, since what was learnt of a text is large and changed where it stands.
    pub fn begin(&mut self, bytes: &'a [u8])
        ensures text { (state_of self.new).text ≡ bytes.now }
        ensures all { remaining bytes.now (state_of self.new) ≡ functions bytes.now }
        ensures ready { Ready bytes.now (state_of self.new) }
    {
        self.text.begin(bytes);
        self.at = 0;
        self.line = 1;
        self.span_end = 0;
        self.resume = 0;
        self.spanless = 0;
        self.barren_from = 0;
        self.barren_to = 0;
    }

    // The start of another text, lent for another time. The notes are moved, and not written anew.
    pub fn with_text<'b>(self, bytes: &'b [u8]) -> Cursor<'b>
        ensures text { (state_of result).text ≡ bytes.now }
        ensures all { remaining bytes.now (state_of result) ≡ functions bytes.now }
        ensures ready { Ready bytes.now (state_of result) }
    {
        Cursor {
            text: self.text.with_text(bytes),
            at: 0,
            line: 1,
            span_end: 0,
            resume: 0,
            spanless: 0,
            barren_from: 0,
            barren_to: 0,
        }
    }

    // The same place in the same bytes, lent for another time: what was learnt and noted stays.
    pub fn lent_again<'b>(self, bytes: &'b [u8]) -> Cursor<'b>
        requires { bytes.now ≡ (state_of self).text }
        ensures { state_of result ≡ state_of self.entry }
    {
        Cursor {
            text: self.text.lent_again(bytes),
            at: self.at,
            line: self.line,
            span_end: self.span_end,
            resume: self.resume,
            spanless: self.spanless,
            barren_from: self.barren_from,
            barren_to: self.barren_to,
        }
    }

    // What was learnt of the braces of the text.
    pub fn braces(&self) -> Braces<'a>
        ensures { result.text.now ≡ (state_of self.now).text }
    {
        self.text.braces()
    }

    // The place of the byte to look at next.
    pub fn at(&self) -> usize
        ensures { result ≡ (state_of self.now).at }
    {
        self.at
    }

    // Its line.
    pub fn line(&self) -> usize
        ensures { result ≡ (state_of self.now).line }
    {
        self.line
    }

    // The function whose `fn` stands at the next byte.
    fn measure(&mut self) -> Option<Found>
        requires { self.old.at + 2 ≤ length (bytes_of self.old.text) }
        ensures measured { Measures (bytes_of self.old.text) (state_of self.old) result (state_of self.new) }
        ensures others { state_of self.new ≡ with_name (state_of self.old) self.new.resume self.new.barren_from self.new.barren_to }
    {
        let s = self.text.bytes();
        let from = search::space_end(s, self.at + 2);
        let to = search::word_end(s, from);
        // `fn(u8) -> u8` is a type, not a definition.
        if to == from {
            return None;
        }
        if self.barren_from <= to {
            if to < self.barren_to {
                return None;
            }
        }
        let signature = self.text.signature_at(to);
        match signature {
            Err(n) => {
                self.barren_from = to;
                self.barren_to = n;
                None
            }
            Ok(b) => {
                self.resume = b.end + 1;
                Some(found_at(s, self.line, from, to, b))
            }
        }
    }

    // The test span at the next byte: the one that is open, or one that begins there.
    fn open_span(&mut self)
        requires { self.old.at < length (bytes_of self.old.text) }
        ensures span { SpanAt (bytes_of self.old.text) (state_of self.old) (state_of self.new) }
        ensures others { state_of self.new ≡ record (state_of self.old) { span_end = self.new.span_end; spanless = self.new.spanless } }
    {
        let s = self.text.bytes();
        let at = self.at;
        if at < self.span_end {
            return;
        }
        if s[at] != b'#' {
            return;
        }
        if at < self.spanless {
            return;
        }
        if !search::test_mark(s, at) {
            return;
        }
        let Some(opened) = search::find(s, b'{', at) else {
            self.spanless = s.len();
            return;
        };
        let closed = self.text.block_end(opened + 1);
        match closed {
            None => self.spanless = opened + 1,
            Some(end) => self.span_end = end,
        }
    }

    // Whether a function is sought at the next byte: at a word `fn` outside test spans and behind the last body.
    #[tactic(auto, using(crate::proofs::Words::at_byte))]
    fn is_sought(&self) -> bool
        requires { self.now.at < length (bytes_of self.now.text) }
        ensures not_found { result ≡ false → sought_at (bytes_of self.now.text) (state_of self.now) ≡ none }
        ensures found { result ≡ true → sought_at (bytes_of self.now.text) (state_of self.now) ≡ function_at (drop self.now.at (bytes_of self.now.text)) }
        ensures inside { result ≡ true → self.now.at + 2 ≤ length (bytes_of self.now.text) }
    {
        let s = self.text.bytes();
        let at = self.at;
        s[at] == b'f' && self.span_end <= at && self.resume <= at && search::word_at(s, at)
    }

    // One byte further.
    fn step(&mut self)
        requires { self.old.at < length (bytes_of self.old.text) }
        ensures ready { Ready (bytes_of self.new.text) (state_of self.new) }
        ensures moved { state_of self.new ≡ moved_to (state_of self.old) (self.old.at + 1) (count_after lf (get_or (bytes_of self.old.text) self.old.at 0) self.old.line) }
    {
        let s = self.text.bytes();
        self.line = flat::count_after(b'\n', s[self.at], self.line);
        self.at += 1;
    }

    // Past the next byte, with the function that begins there.
    fn turn_at(&mut self) -> Option<Found>
        requires { self.old.at < length (bytes_of self.old.text) }
        ensures { Turned (bytes_of self.old.text) (state_of self.old) result (state_of self.new) }
    {
        self.open_span();
        if !self.is_sought() {
            self.step();
            return None;
        }
        let found = self.measure();
        self.step();
        found
    }

    // Past bytes at which nothing can begin. Whether the text goes on there.
    fn pass_quiet(&mut self) -> bool
        ensures passed { (bytes_of self.new.text ≡ bytes_of self.old.text)
            × (remaining (bytes_of self.old.text) (state_of self.old) ≡ remaining (bytes_of self.old.text) (state_of self.new))
            × (self.old.at ≤ self.new.at) }
        ensures ready { Ready (bytes_of self.new.text) (state_of self.new) }
        ensures inside { result ≡ true → self.new.at < length (bytes_of self.new.text) }
        ensures end { result ≡ false → length (bytes_of self.new.text) ≤ self.new.at }
    {
        let s = self.text.bytes();
        let from = Spot {
            at: self.at,
            line: self.line,
        };
        let q = quiet_end(s, from, self.span_end, self.resume);
        self.at = q.at;
        self.line = q.line;
        q.at < s.len()
    }
}

impl<'a> Iterator for Cursor<'a> {
    ghost use Rattle.source.specs.View.{state_of};

    type Item = Found;

    ghost next_gives = { λ c found d. Stepped (bytes_of c.text) (state_of c) found (state_of d) };

    ghost remaining = { item_count (λ c. remaining (bytes_of c.text) (state_of c)) };

    // The next function of the text.
    fn next(&mut self) -> Option<Found> {
        // Kept: inside `next` a turn passes a run of bytes of any length, and an iterator of such turns would serve this loop alone.
        while self.pass_quiet() {
            let found = self.turn_at();
            if found.is_some() {
                return found;
            }
        }
        None
    }
}

#[cfg(test)]
mod tests {
    use super::Cursor;

    // A copy goes on from the place of the cursor, which stays where it is.
    #[test]
    fn copied(rt: HostRuntime) {
        let mut cursor = Cursor::new(b"fn a() {}\nfn b() {}\n");
        assert!(rt; cursor.next().is_some_and(|f| f.line == 1));
        let mut copy = cursor;
        assert!(rt; copy.next().is_some_and(|f| f.line == 2));
        assert!(rt; copy.next().is_none());
        assert!(rt; cursor.next().is_some_and(|f| f.line == 2));
    }
}
