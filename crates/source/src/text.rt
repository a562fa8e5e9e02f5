// A text with what was learnt of its braces and brackets, and the brackets of a function, sought in it.

ghost use Rattle.std.specs.Prelude.{◌≡◌, IsTrue, ℕ, ◌+◌, ◌≤◌, ◌<◌, length, get_or, drop};
ghost use Rattle.std.proofs.Math.Option.{none};
ghost use Rattle.text_rules.specs.Classes.{brace_close, brace_open};
ghost use Rattle.source_rules.specs.Brackets.{partner};
ghost use Rattle.source_rules.specs.Finding.{function_from};
ghost use Rattle.search.specs.Place.{place_of};
ghost use Rattle.signatures.specs.Signatures.{Begins};
ghost use Rattle.signatures.specs.Text.{text_of};
ghost use Rattle.source.specs.Cursors.{Blocked, Signed};

use measures::{Body, Walked};
use search::Braces;
use signatures::{Notes, Signature};

// The brackets of a function after its name, those of its list and those of its body, and what is measured of the body.
#[derive(Clone, Copy)]
pub struct Brackets {
    pub opened: usize,
    pub closed: usize,
    pub body: usize,
    pub end: usize,
    pub measures: Walked,
}

// Whether every brace that was sought had a partner, and one may stand behind a place.
fn is_closed_so_far(braces: &Braces, at: usize) -> bool {
    braces.at == braces.last_closing && at < braces.at
}

// Whether no `{` stands from a place on, or no `}`: no name that ends there is a function's.
#[tactic(auto, using(crate::proofs::Behind::behind_opening, crate::proofs::Behind::behind_closing))]
fn is_behind_braces(braces: &Braces, to: usize) -> bool
    ensures { IsTrue result → (from x : ℕ) → to ≤ x → function_from from x braces.now.text.now ≡ none }
{
    braces.last_opening <= to || braces.last_closing <= to
}

// A text, what was learnt of its braces, and what is noted of its brackets.
#[derive(Clone, Copy)]
pub struct Text<'a> {
    braces: Braces<'a>,
    notes: Notes<'a>,
    ghost same: { text_of notes ≡ braces.text.now },
}

impl<'a> Text<'a> {
    ghost use Rattle.source.specs.Bytes.{bytes_of};

    // A text of which nothing was learnt.
    pub fn new(bytes: &'a [u8]) -> Text<'a>
        ensures { bytes_of result ≡ bytes.now }
    {
        Text {
            braces: Braces::nothing_learnt(bytes),
            notes: Notes::new(bytes),
        }
    }

    // Another text, of which nothing was learnt.
    pub fn begin(&mut self, bytes: &'a [u8])
        ensures { bytes_of self.new ≡ bytes.now }
    {
        self.braces = Braces::nothing_learnt(bytes);
        self.notes.begin(bytes);
    }

    // Another text, lent for another time, of which nothing was learnt. The notes are moved, and not written anew.
    pub fn with_text<'b>(self, bytes: &'b [u8]) -> Text<'b>
        ensures { bytes_of result ≡ bytes.now }
    {
        Text {
            braces: Braces::nothing_learnt(bytes),
            notes: self.notes.with_text(bytes),
        }
    }

    // The same bytes, lent for another time: what was learnt and noted stays.
    pub fn lent_again<'b>(self, bytes: &'b [u8]) -> Text<'b>
        requires { bytes.now ≡ bytes_of self }
        ensures { bytes_of result ≡ bytes.now }
    {
        let Text { braces, notes } = self;
        Text {
            braces: braces.lent_again(bytes),
            notes: notes.lent_again(bytes),
        }
    }

    // What was learnt of its braces.
    pub fn braces(&self) -> Braces<'a>
        ensures { result.text.now ≡ bytes_of self.now }
    {
        self.braces
    }

    // Its bytes.
    pub fn bytes(&self) -> &'a [u8]
        ensures { result.now ≡ bytes_of self.now }
    {
        self.braces.text()
    }

    // The partner of a `{` that stands before `from`.
    pub fn block_end(&mut self, from: usize) -> Option<usize>
        requires { from ≤ length (bytes_of self.old) }
        ensures found { place_of result ≡ partner brace_open brace_close 0 from (drop from (bytes_of self.old)) }
        ensures same { bytes_of self.new ≡ bytes_of self.old }
    {
        self.braces.block_end(from)
    }

    // The body whose opening brace stands at a place, if it is ever closed. Its end is sought before it is measured.
    fn block_found(&mut self, body: usize) -> Option<Body>
        requires { body < length (bytes_of self.old) }
        ensures block { Blocked (bytes_of self.old) body result }
        ensures same { bytes_of self.new ≡ bytes_of self.old }
    {
        let s = self.bytes();
        let end = self.block_end(body + 1)?;
        let to = end + 1;
        Some(Body {
            end,
            measures: measures::walk(&s[body..to]),
        })
    }

    // The body whose opening brace stands at a place, if it is ever closed. As long as every brace has a partner, it is measured on the way to its
    // end.
    fn block_at(&mut self, body: usize) -> Option<Body>
        requires inside { body < length (bytes_of self.old) }
        requires brace { get_or (bytes_of self.old) body 0 ≡ brace_open }
        ensures block { Blocked (bytes_of self.old) body result }
        ensures same { bytes_of self.new ≡ bytes_of self.old }
    {
        if is_closed_so_far(&self.braces, body) {
            let s = self.bytes();
            if let Some(b) = measures::walk_from(&s[body..], 0) {
                return Some(Body {
                    end: body + b.end,
                    measures: b.measures,
                });
            }
        }
        self.block_found(body)
    }

    // What follows a `(` that stands before `from`.
    fn brackets_after(&mut self, from: usize) -> Option<Signature>
        requires { from ≤ length (bytes_of self.old) }
        ensures begins { Begins (bytes_of self.old) from result }
        ensures same { bytes_of self.new ≡ bytes_of self.old }
    {
        self.notes.brackets_after(from)
    }

    // The brackets after a name that ends at `to`, each of them sought. Where not all four are there, they are not there either after any other
    // name that ends from there up to the place that is told.
    fn signature_sought(&mut self, to: usize) -> Result<Brackets, usize>
        ensures signed { Signed (bytes_of self.old) to result }
        ensures same { bytes_of self.new ≡ bytes_of self.old }
    {
        let s = self.bytes();
        let Some(opened) = search::find(s, b'(', to) else {
            return Err(s.len());
        };
        let inside = opened + 1;
        let Some(Signature { closed, body }) = self.brackets_after(inside) else {
            return Err(inside);
        };
        let block = self.block_at(body);
        match block {
            None => Err(inside),
            Some(b) => Ok(Brackets {
                opened,
                closed,
                body,
                end: b.end,
                measures: b.measures,
            }),
        }
    }

    // The brackets after a name that ends at `to`, or up to where none is a function's. Behind the last `{` or the last `}` no name is, and nothing
    // is sought.
    pub fn signature_at(&mut self, to: usize) -> Result<Brackets, usize>
        ensures signed { Signed (bytes_of self.old) to result }
        ensures same { bytes_of self.new ≡ bytes_of self.old }
    {
        if is_behind_braces(&self.braces, to) {
            return Err(self.bytes().len());
        }
        self.signature_sought(to)
    }
}
