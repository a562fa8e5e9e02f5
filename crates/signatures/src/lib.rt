// The end of a list of parameters, the partner of a round bracket, and the brace that opens the body behind it. What is noted of the brackets of a
// part of the text is used, so that lists inside one another are not each sought to their end, nor the bodies behind them.
// A search that goes far passes chunks in which it cannot end without reading them. What a search for a body found is kept for others that
// come to the same place at the same depths.
#![tactic(auto)]

ghost use Rattle.std.specs.Prelude.{◌≡◌, ◌≤◌, length};
ghost use Rattle.std.proofs.Math.Option.{some};
ghost use Rattle.flat.specs.Body.{Counted, body_from};
ghost use Rattle.memo.specs.Memo.{Recalls};
ghost use Rattle.parts.specs.Told.{body_behind, sought_from};
ghost use Rattle.signatures.specs.OneProof.{recalls_prop};
ghost use Rattle.signatures.specs.Signatures.{Begins};

use flat::{Counts, Reached};
use lists::Lists;
use memo::Kept;
use search::Met;

mod far;
mod lists;

// The bytes in which a list is sought first, and a body: most end before that, and nothing is noted for them.
const NEAR: usize = 4096;

// The end of a list and the brace that opens the body behind it.
#[derive(Clone, Copy)]
pub struct Signature {
    pub closed: usize,
    pub body: usize,
}

// A text with what is noted of its brackets, the sums of its chunks, and the last long searches for a body.
#[derive(Clone, Copy)]
pub struct Notes<'a> {
    lists: Lists<'a>,
    kept: Kept,
    ghost recalls: { Recalls lists.text.now kept } by { recalls_prop lists.text.now kept },
}

impl<'a> Notes<'a> {
    ghost use Rattle.signatures.specs.Text.{text_of};

    // A text of which nothing is noted.
    pub fn new(text: &'a [u8]) -> Notes<'a>
        ensures { text_of result ≡ text.now }
    {
        Notes {
            lists: Lists::new(text),
            kept: Kept::new(),
        }
    }

    // Another text, of which nothing is noted.
    pub fn begin(&mut self, text: &'a [u8])
        ensures { text_of self.new ≡ text.now }
    {
        self.lists.begin(text);
        self.kept.forget(0);
    }

    // Another text, lent for another time, of which nothing is noted. The tables are moved, and not written anew.
    pub fn with_text<'b>(self, text: &'b [u8]) -> Notes<'b>
        ensures { text_of result ≡ text.now }
    {
        let Notes {
            lists,
            kept: mut searches,
        } = self;
        searches.forget(0);
        Notes {
            lists: lists.with_text(text),
            kept: searches,
        }
    }

    // The same bytes, lent for another time: what is noted and kept stays.
    pub fn lent_again<'b>(self, text: &'b [u8]) -> Notes<'b>
        requires { text.now ≡ text_of self }
        ensures { text_of result ≡ text.now }
    {
        let Notes { lists, kept } = self;
        Notes {
            lists: lists.lent_again(text),
            kept,
        }
    }

    // The text.
    pub fn text(&self) -> &'a [u8]
        ensures { result.now ≡ text_of self.now }
    {
        self.lists.text()
    }

    // What follows a `(` before `from` whose list ends at `closed`. No body is met up to the place `mark`, where so much is counted. What a search
    // found that came there at the same depths is used; where none is kept the body is sought, and what is found is kept.
    fn marked_body(
        &mut self,
        from: usize,
        closed: usize,
        mark: usize,
        n: Counts,
    ) -> Option<Signature>
        requires { (from ≤ mark)
            × (mark ≤ length (text_of self.old))
            × Counted n mark
            × (sought_from (text_of self.old) from 0 ≡ some closed)
            × (body_behind (text_of self.old) closed ≡ body_from (text_of self.old) mark n) }
        ensures begins { Begins (text_of self.old) from result }
        ensures same { text_of self.new ≡ text_of self.old }
    {
        let Notes { lists, kept } = self;
        match kept.recall(lists.sums(), mark, n) {
            Some(Some(body)) => return Some(Signature { closed, body }),
            Some(None) => return None,
            None => {}
        }
        let went = lists.further_body(from, closed, mark, n);
        let sought = went.sought;
        kept.keep(n, sought.map(|r| r.body), went.end);
        sought
    }

    // What follows a `(` before `from` whose list ends at `closed`. The body is sought up to a place at which searches are looked up.
    fn near_body(&mut self, from: usize, closed: usize) -> Option<Signature>
        requires { sought_from (text_of self.old) from 0 ≡ some closed }
        ensures begins { Begins (text_of self.old) from result }
        ensures same { text_of self.new ≡ text_of self.old }
    {
        let text = self.text();
        let behind = closed + 1;
        let mark = self.kept.mark_after(behind, text.len());
        let met = flat::body_before(text, behind, mark, Counts::default());
        match met {
            Reached::Brace(body) => Some(Signature { closed, body }),
            Reached::Ended(_) => None,
            Reached::Further(n) => self.marked_body(from, closed, mark, n),
        }
    }

    // What follows a `(` that stands before `from`, sought nearby first.
    fn sought_after(&mut self, from: usize) -> Option<Signature>
        requires { from ≤ length (text_of self.old) }
        ensures begins { Begins (text_of self.old) from result }
        ensures same { text_of self.new ≡ text_of self.old }
    {
        let text = self.text();
        let near = (from + NEAR).min(text.len());
        let met = search::partner_before(text, b'(', b')', from, near, 0);
        match met {
            Met::Partner(closed) => self.near_body(from, closed),
            Met::Depth(depth) => self.lists.noted_list(from, near, depth),
        }
    }

    // What follows a `(` that stands before `from`: the end of its list and the brace of its body, or not both. Where that is noted, nothing is
    // sought, and the use is counted.
    pub fn brackets_after(&mut self, from: usize) -> Option<Signature>
        requires { from ≤ length (text_of self.old) }
        ensures begins { Begins (text_of self.old) from result }
        ensures same { text_of self.new ≡ text_of self.old }
    {
        match self.lists.noted(from) {
            Some(sought) => sought,
            None => self.sought_after(from),
        }
    }
}
