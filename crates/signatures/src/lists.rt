// What is noted of the brackets of a text, and searches that make use of it.

ghost use Rattle.std.specs.Prelude.{◌≡◌, ◌≤◌, ◌<◌, length, MatchOption};
ghost use Rattle.std.proofs.Math.Option.{some};
ghost use Rattle.flat.specs.Body.{Counted, body_from};
ghost use Rattle.chunks.specs.Table.{Summed};
ghost use Rattle.parts.specs.Told.{NoteTells, body_behind, sought_from};
ghost use Rattle.windows.specs.Window.{Noted};
ghost use Rattle.signatures.specs.OneProof.{noted_prop};
ghost use Rattle.signatures.specs.Signatures.{Begins};

use super::{NEAR, Signature, far};
use chunks::{Table, TextSums};
use flat::{Counts, Reached};
use windows::{Note, Window};

// A text with what is noted of its brackets and the sums of its chunks.
#[derive(Clone, Copy)]
pub struct Lists<'a> {
    pub text: &'a [u8],
    window: Window,
    sums: Table,
    ghost noted: { Noted (NoteTells text.now) window } by { noted_prop text.now window },
    ghost summed: { Summed text.now sums },
}

// What follows a `(`, and how far the search for the body went, at most. That decides only how long later searches take.
#[derive(Clone, Copy)]
pub struct Went {
    pub sought: Option<Signature>,
    pub end: usize,
}

impl<'a> Lists<'a> {
    // A text of which nothing is noted.
    pub fn new(text: &'a [u8]) -> Lists<'a>
        ensures { result.text.now ≡ text.now }
    {
        Lists {
            text,
            window: Window::new(),
            sums: Table::new(),
        }
    }

    // Another text, of which nothing is noted.
    pub fn begin(&mut self, text: &'a [u8])
        ensures { self.new.text.now ≡ text.now }
    {
        self.text = text;
        self.window.clear();
        self.sums.clear();
    }

    // Another text, lent for another time, of which nothing is noted. The tables are moved, and not written anew.
    pub fn with_text<'b>(self, text: &'b [u8]) -> Lists<'b>
        ensures { result.text.now ≡ text.now }
    {
        let Lists {
            window: mut notes,
            mut sums,
            ..
        } = self;
        notes.clear();
        sums.clear();
        Lists {
            text,
            window: notes,
            sums,
        }
    }

    // The same bytes, lent for another time: what is noted stays.
    pub fn lent_again<'b>(self, text: &'b [u8]) -> Lists<'b>
        requires { text.now ≡ self.text.now }
        ensures { result.text.now ≡ text.now }
    {
        let Lists { window, sums, .. } = self;
        Lists { text, window, sums }
    }

    // The text.
    pub fn text(&self) -> &'a [u8]
        ensures { result.now ≡ self.now.text.now }
    {
        self.text
    }

    // The text with the sums of its chunks.
    pub fn sums(&self) -> TextSums<'_>
        ensures { result.text.now ≡ self.now.text.now }
    {
        TextSums {
            text: self.text,
            table: &self.sums,
        }
    }

    // What is noted of the bracket before a place.
    fn note(&self, from: usize) -> Note
        ensures { NoteTells self.now.text.now from result }
    {
        self.window.noted_at(from)
    }

    // What follows a `(` before `from`, where all of it is noted. The use is counted.
    pub fn noted(&mut self, from: usize) -> Option<Option<Signature>>
        ensures told { MatchOption result (Unit {0}) (Begins self.old.text.now from) }
        ensures same { self.new.text.now ≡ self.old.text.now }
    {
        let sought = match self.note(from) {
            Note::Nothing | Note::Closed(_) => return None,
            Note::Broken => None,
            Note::Whole(closed, body) => Some(Signature {
                closed: closed as usize,
                body: body as usize,
            }),
        };
        self.window.mark_used();
        Some(sought)
    }

    // Counts a search from a place that goes far. Brackets are noted from the place on where many searches near it do, or where what is noted of
    // the part before it was of use often.
    fn look_up(&mut self, from: usize)
        requires { from < length self.old.text.now }
        ensures { self.new.text.now ≡ self.old.text.now }
    {
        self.sums.count_far(self.text);
        if !self.window.count_search(from) {
            return;
        }
        let text = TextSums {
            text: self.text,
            table: &self.sums,
        };
        parts::fill(text, from, &mut self.window);
    }

    // What follows a `(` before `from`. Its list is not closed up to the place `near`, at which so many are open inside it.
    pub fn noted_list(&mut self, from: usize, near: usize, depth: usize) -> Option<Signature>
        requires { (from ≤ near)
            × (near ≤ length self.old.text.now)
            × (depth ≤ near)
            × (sought_from self.old.text.now from 0 ≡ sought_from self.old.text.now near depth) }
        ensures begins { Begins self.old.text.now from result }
        ensures same { self.new.text.now ≡ self.old.text.now }
    {
        if near == self.text.len() {
            return None;
        }
        self.look_up(from);
        match self.note(from) {
            Note::Nothing => far::far_list(self.sums(), from, near, depth),
            Note::Broken => None,
            Note::Closed(closed) => far::body_behind(self.sums(), closed as usize),
            Note::Whole(closed, body) => Some(Signature {
                closed: closed as usize,
                body: body as usize,
            }),
        }
    }

    // What follows a `(` before `from` whose list ends at `closed`. No body is met up to the place `near`, where so much is counted.
    fn noted_body(
        &mut self,
        from: usize,
        closed: usize,
        near: usize,
        n: Counts,
    ) -> Option<Signature>
        requires { (from ≤ near)
            × (near ≤ length self.old.text.now)
            × Counted n near
            × (sought_from self.old.text.now from 0 ≡ some closed)
            × (body_behind self.old.text.now closed ≡ body_from self.old.text.now near n) }
        ensures begins { Begins self.old.text.now from result }
        ensures same { self.new.text.now ≡ self.old.text.now }
    {
        if near == self.text.len() {
            return None;
        }
        self.look_up(from);
        match self.note(from) {
            Note::Broken => None,
            Note::Whole(_, body) => Some(Signature {
                closed,
                body: body as usize,
            }),
            Note::Nothing | Note::Closed(_) => far::far_body(self.sums(), closed, near, n),
        }
    }

    // What follows a `(` before `from` whose list ends at `closed`. No body is met up to the place `at`, where so much is counted. It is sought
    // nearby first.
    pub fn further_body(&mut self, from: usize, closed: usize, at: usize, n: Counts) -> Went
        requires { (from ≤ at)
            × (at ≤ length self.old.text.now)
            × Counted n at
            × (sought_from self.old.text.now from 0 ≡ some closed)
            × (body_behind self.old.text.now closed ≡ body_from self.old.text.now at n) }
        ensures begins { Begins self.old.text.now from result.sought }
        ensures same { self.new.text.now ≡ self.old.text.now }
    {
        let text = self.text;
        let near = (at + NEAR).min(text.len());
        let met = flat::body_before(text, at, near, n);
        match met {
            Reached::Brace(body) => Went {
                sought: Some(Signature { closed, body }),
                end: body,
            },
            Reached::Ended(end) => Went { sought: None, end },
            Reached::Further(k) => Went {
                sought: self.noted_body(from, closed, near, k),
                end: text.len(),
            },
        }
    }
}
