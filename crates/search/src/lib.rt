// Searches in a blanked text: a byte, a bracket's partner, the ends of white space and of a word, the word `fn`, and the mark of test code. What is
// known of braces is kept, so that a text of many that are never closed is not read to its end for each.
#![tactic(auto)]

ghost use Rattle.std.specs.Prelude.{◌==◌, ◌≡◌, ◌≢◌, ◌∷◌, ◌+◌, ◌-◌, ◌≤◌, length, get_or, drop};
ghost use Rattle.std.specs.List.{position};
ghost use Rattle.text_rules.specs.Bytes.{ascii};
ghost use Rattle.text_rules.specs.Classes.{is_space, is_word};
ghost use Rattle.text_rules.specs.Search.{find, run, starts_with};
ghost use Rattle.source_rules.specs.Finding.{is_fn};
ghost use Rattle.search.specs.Place.{Meets, place_of};
ghost use Rattle.search.specs.Passing.{Passes};

use seek::{byte, byte_before};

mod braces;

pub use braces::Braces;

// The first `x`.
fn first(s: &[u8], x: u8) -> Option<usize>
    ensures { result ≡ position (λ b. b == x) s.now }
{
    s.iter().position(|b| *b == x)
}

// The first `x` from a place on.
#[tactic(auto, using(crate::proofs::Finds::found_at, crate::proofs::Finds::not_found))]
pub fn find(s: &[u8], x: u8, from: usize) -> Option<usize>
    ensures { place_of result ≡ find x from (drop from s.now) }
{
    let rest = s.get(from..)?;
    Some(from + first(rest, x)?)
}

// What a search for a partner meets up to a place: the partner, or the brackets that are open there.
// Kept: neither is a failure, and a result of two numbers would not say which of them is the place.
#[derive(Clone, Copy)]
pub enum Met {
    Partner(usize),
    Depth(usize),
}

// The partner of a bracket, sought from one place up to another, with so many brackets open inside it.
// Kept: the two bytes are parameters. Each caller writes them once, as constants, and a struct of them would be taken apart here.
pub fn partner_before(
    s: &[u8],
    opening: u8,
    closing: u8,
    from: usize,
    to: usize,
    depth: usize,
) -> Met
    requires { (opening ≢ closing) × (from ≤ to) × (to ≤ length s.now) × (depth ≤ from) }
    ensures { Meets s.now opening closing from to depth result }
{
    let mut inner = depth;
    for at in from..to {
        let b = s[at];
        if b == opening {
            inner += 1;
        } else if b == closing {
            if inner == 0 {
                return Met::Partner(at);
            }
            inner -= 1;
        }
    }
    Met::Depth(inner)
}

// The brackets of some bytes that have no partner among them: those that close one from before, and those that are not closed.
#[derive(Clone, Copy)]
pub struct Unmatched {
    pub closed: usize,
    pub opened: usize,
}

// What is unmatched from one place to another. A bracket with as many open inside it as are closed there is sought on behind it, with the others
// and those that are opened.
pub fn count_unmatched(s: &[u8], opening: u8, closing: u8, from: usize, to: usize) -> Unmatched
    requires { (opening ≢ closing) × (from ≤ to) × (to ≤ length s.now) }
    ensures passes { Passes s.now opening closing from to result }
    ensures few { result.closed + result.opened ≤ to - from }
{
    let mut closed: usize = 0;
    let mut opened: usize = 0;
    for at in from..to {
        let b = s[at];
        if b == opening {
            opened += 1;
        } else if b == closing {
            match opened.checked_sub(1) {
                Some(left) => opened = left,
                None => closed += 1,
            }
        }
    }
    Unmatched { closed, opened }
}

// Kept: this, the next one and `word_end` of measures are one search, `end_while` of seek, each with a test of its own; each says in the words of the
// rules what that search finds.

// The end of the white space that begins at a place.
pub fn space_end(s: &[u8], from: usize) -> usize
    requires { from ≤ length s.now }
    ensures end { result ≡ from + run is_space (drop from s.now) }
    ensures behind { from ≤ result }
    ensures inside { result ≤ length s.now }
{
    seek::end_while(s, from, |b| classes::is_space(b))
}

// The end of the word that begins at a place.
pub fn word_end(s: &[u8], from: usize) -> usize
    requires { from ≤ length s.now }
    ensures end { result ≡ from + run is_word (drop from s.now) }
    ensures behind { from ≤ result }
    ensures inside { result ≤ length s.now }
{
    seek::end_while(s, from, |b| classes::is_word(b))
}

// Whether the given bytes stand at a place.
#[tactic(auto, using(crate::proofs::Finds::begins_from))]
fn begins(s: &[u8], from: usize, word: &[u8]) -> bool
    ensures { result ≡ starts_with word.now (drop from s.now) }
{
    s[from.min(s.len())..].starts_with(word)
}

// Whether the word `fn` stands at a place: no letter, digit or `_` on either side.
#[tactic(auto, using(crate::proofs::Words::word_there, crate::proofs::Words::word_inside))]
pub fn word_at(s: &[u8], at: usize) -> bool
    ensures { result ≡ is_fn (get_or (0 ∷ s.now) at 0) (drop at s.now) }
{
    begins(s, at, b"fn")
        && !classes::is_word(byte_before(s, at))
        && !classes::is_word(byte(s, at + 2))
}

// Whether test code is marked at a place.
pub fn test_mark(s: &[u8], at: usize) -> bool
    ensures { result ≡ starts_with (ascii "#[cfg(test)]") (drop at s.now) }
{
    begins(s, at, b"#[cfg(test)]")
}

#[cfg(test)]
mod tests {
    use super::test_mark;

    #[test]
    fn marked(rt: HostRuntime) {
        assert!(rt; test_mark(b"    #[cfg(test)]\nmod tests {", 4));
        assert!(rt; !test_mark(b"    #[cfg(test)]\nmod tests {", 0));
        assert!(rt; !test_mark(b"#[cfg(tests)]", 0));
        assert!(rt; !test_mark(b"#[cfg(test)", 0));
    }
}
