// Searches that go far: chunks of the text in which they cannot end are passed.

ghost use Rattle.std.specs.Prelude.{◌≡◌, ◌+◌, ◌≤◌, ◌<◌, length};
ghost use Rattle.flat.specs.Body.{Counted, body_from};
ghost use Rattle.search.specs.Place.{place_of};
ghost use Rattle.parts.specs.Told.{body_behind, sought_from};
ghost use Rattle.signatures.specs.Signatures.{Begins, Follows};

use super::Signature;
use chunks::TextSums;
use flat::{Counts, Reached};
use search::Met;

// The partner of a `(`, sought to the end of the text from a place at which so many are open inside it. Chunks are passed, or read up to the next.
// Kept: `body_until` of memo goes by the same steps, but what it counts, how it passes a chunk or reads on, and what ends it differ. One function for
// both would need a trait with two methods and their laws, and a type with an impl for each: more than the two loops.
fn far_end(text: TextSums, from: usize, depth: usize) -> Option<usize>
    requires { (from ≤ length text.text.now) × (depth ≤ from) }
    ensures { place_of result ≡ sought_from text.entry.text.now from depth }
{
    let s = text.text;
    let mut at = from;
    let mut inner = depth;
    // Kept: a step is a chunk, or what is left of one. An iterator of such steps would serve this loop alone.
    while at < s.len() {
        match text.round_past(at, inner) {
            Some(d) => {
                at += chunks::SIZE;
                inner = d;
            }
            None => {
                let to = chunks::edge_after(at, s.len());
                match search::partner_before(s, b'(', b')', at, to, inner) {
                    Met::Partner(p) => {
                        return Some(p);
                    }
                    Met::Depth(d) => {
                        at = to;
                        inner = d;
                    }
                }
            }
        }
    }
    None
}

// The body behind a list that ends at `closed`, sought to the end of the text from a place with what is counted up to there.
pub fn far_body(text: TextSums, closed: usize, from: usize, n: Counts) -> Option<Signature>
    requires { (from ≤ length text.text.now)
        × Counted n from
        × (body_behind text.text.now closed ≡ body_from text.text.now from n) }
    ensures { Follows text.entry.text.now closed result }
{
    match memo::body_until(text, from, text.text.len(), n) {
        Reached::Brace(body) => Some(Signature { closed, body }),
        Reached::Ended(_) => None,
        Reached::Further(_) => None,
    }
}

// The body behind a list that ends at `closed`, sought to the end of the text.
pub fn body_behind(text: TextSums, closed: usize) -> Option<Signature>
    requires { closed < length text.text.now }
    ensures { Follows text.entry.text.now closed result }
{
    far_body(text, closed, closed + 1, Counts::default())
}

// What follows a `(` before `from`, sought to the end of the text from a place at which so many are open inside it.
pub fn far_list(text: TextSums, from: usize, at: usize, depth: usize) -> Option<Signature>
    requires { (at ≤ length text.text.now)
        × (depth ≤ at)
        × (sought_from text.text.now from 0 ≡ sought_from text.text.now at depth) }
    ensures { Begins text.entry.text.now from result }
{
    let closed = far_end(text, at, depth)?;
    body_behind(text, closed)
}
