// What was learnt of the braces of a text.

ghost use Rattle.std.specs.Prelude.{◌≡◌, ◌≢◌, ◌<◌, ℕ, MatchOption, slice_index, IsTrue, ◌≤◌, length, drop};
ghost use Rattle.std.proofs.Math.Option.{none};
ghost use Rattle.text_rules.specs.Classes.{brace_close, brace_open};
ghost use Rattle.source_rules.specs.Brackets.{partner};
ghost use Rattle.search.specs.Open.{Open, open_prop};
ghost use Rattle.search.specs.Place.{Absent, absent_prop, place_of};

use super::{Met, count_unmatched, partner_before};

// The last `x`.
// Kept: the library goes through a list from its two ends by two methods, so `first` and `last` are two functions.
fn last(s: &[u8], x: u8) -> Option<usize>
    ensures { MatchOption result ((k : ℕ) → k < length s.now → slice_index s.now k ≢ x) (λ i. (i < length s.now) × ((k : ℕ) → i < k → k < length s.now → slice_index s.now k ≢ x)) }
{
    s.iter().rposition(|b| *b == x)
}

// The place behind the last `x`: none stands from there on.
fn behind_last(s: &[u8], x: u8) -> usize
    ensures none_behind { (k : ℕ) → result ≤ k → k < length s.now → slice_index s.now k ≢ x }
    ensures inside { result ≤ length s.now }
{
    match last(s, x) {
        Some(at) => at + 1,
        None => 0,
    }
}

// How many `}` from a place on close nothing that was opened there. A `{` with as many open inside it is never closed.
#[tactic(auto, using(crate::proofs::Kept::never_closed))]
fn closings(s: &[u8], from: usize) -> usize
    requires { from ≤ length s.now }
    ensures { partner brace_open brace_close result from (drop from s.now) ≡ none }
{
    count_unmatched(s, b'{', b'}', from, s.len()).closed
}

// The place that is looked at after a bracket at `from` was found to have no partner: so far on that few such places cover a text, and so near
// that a search up to it is short.
fn further(length: usize, from: usize) -> usize
    requires { from ≤ length }
    ensures behind { from ≤ result }
    ensures inside { result ≤ length }
{
    from.saturating_add(1024 + length / 1024).min(length)
}

// A text, and what was learnt of its braces.
#[derive(Clone, Copy)]
pub struct Braces<'a> {
    pub text: &'a [u8],
    // no `{` stands from here on, and no `}`
    pub last_opening: usize,
    pub last_closing: usize,
    // a `{` with `depth` open inside it at the place `at` has no partner
    pub at: usize,
    pub depth: usize,
    // behind which places the last two `{` stood that were sought and have no partner
    pub latest: Option<usize>,
    pub older: Option<usize>,
    pub ghost no_opening: { Absent brace_open text.now last_opening } by { absent_prop brace_open text.now last_opening },
    pub ghost no_closing: { Absent brace_close text.now last_closing } by { absent_prop brace_close text.now last_closing },
    pub ghost none_there: { partner brace_open brace_close depth at (drop at text.now) ≡ none },
    pub ghost inside: { at ≤ length text.now },
    pub ghost latest_none: { Open text.now latest } by { open_prop text.now latest },
    pub ghost older_none: { Open text.now older } by { open_prop text.now older },
}

impl<'a> Braces<'a> {
    // At the start of a text.
    #[tactic(auto, using(crate::proofs::Finds::none_behind))]
    pub fn nothing_learnt(text: &'a [u8]) -> Braces<'a>
        ensures { result.text.now ≡ text.now }
    {
        let last_closing = behind_last(text, b'}');
        Braces {
            text,
            last_opening: behind_last(text, b'{'),
            last_closing,
            at: last_closing,
            depth: 0,
            latest: None,
            older: None,
        }
    }

    // The same bytes, lent for another time: what was learnt stays.
    pub fn lent_again<'b>(self, text: &'b [u8]) -> Braces<'b>
        requires { text.now ≡ self.text.now }
        ensures text { result.text.now ≡ text.now }
        ensures braces { (result.last_opening ≡ self.entry.last_opening) × (result.last_closing ≡ self.entry.last_closing) }
        ensures unclosed { (result.at ≡ self.entry.at) × (result.depth ≡ self.entry.depth) }
        ensures last { (result.latest ≡ self.entry.latest) × (result.older ≡ self.entry.older) }
    {
        Braces {
            text,
            last_opening: self.last_opening,
            last_closing: self.last_closing,
            at: self.at,
            depth: self.depth,
            latest: self.latest,
            older: self.older,
        }
    }

    // The text.
    pub fn text(&self) -> &'a [u8]
        ensures { result.now ≡ self.now.text.now }
    {
        self.text
    }

    // Whether a `{` before a place is one of the last that have no partner.
    fn is_open(&self, from: usize) -> bool
        ensures { IsTrue result → partner brace_open brace_close 0 from (drop from self.now.text.now) ≡ none }
    {
        self.latest == Some(from) || self.older == Some(from)
    }

    // After a brace before `from` was found to have no partner. The text is read to its end again only where the place that is known is behind, or
    // twice as far on as a new one would be: so braces that are sought from the last to the first do not each cost a pass.
    fn look_further(&mut self, from: usize)
        requires { from ≤ length self.old.text.now }
        ensures { self.new.text.now ≡ self.old.text.now }
    {
        let text = self.text;
        let at = further(text.len(), from);
        if self.at < from || further(text.len(), at) < self.at {
            self.depth = closings(text, at);
            self.at = at;
        }
    }

    // The partner of a `{` that stands before `from`, sought behind the place that is known, at which so many are open inside it.
    #[tactic(auto, using(crate::proofs::Kept::past_all))]
    fn partner_behind(&mut self, from: usize, depth: usize) -> Option<usize>
        requires inside { from ≤ length self.old.text.now }
        requires shallow { depth ≤ from }
        ensures found { place_of result ≡ partner brace_open brace_close depth from (drop from self.old.text.now) }
        ensures same { self.new.text.now ≡ self.old.text.now }
    {
        let text = self.text;
        match partner_before(text, b'{', b'}', from, text.len(), depth) {
            Met::Partner(p) => Some(p),
            Met::Depth(_) => {
                self.look_further(from);
                None
            }
        }
    }

    // The partner of a `{` that stands before `from`. A text of many that are never closed is not read to its end for each.
    #[tactic(auto, using(crate::proofs::Kept::closed_before, crate::proofs::Kept::deep_open))]
    fn partner(&mut self, from: usize) -> Option<usize>
        requires { from ≤ length self.old.text.now }
        ensures found { place_of result ≡ partner brace_open brace_close 0 from (drop from self.old.text.now) }
        ensures same { self.new.text.now ≡ self.old.text.now }
    {
        if self.last_closing <= from {
            return None;
        }
        let at = self.at;
        if at < from {
            return self.partner_behind(from, 0);
        }
        match partner_before(self.text, b'{', b'}', from, at, 0) {
            Met::Partner(p) => Some(p),
            Met::Depth(d) => {
                if self.depth <= d {
                    self.look_further(from);
                    return None;
                }
                self.partner_behind(at, d)
            }
        }
    }

    // The partner of a `{` that stands before `from`. Names that stand next to each other often lead to the same `{`.
    pub fn block_end(&mut self, from: usize) -> Option<usize>
        requires { from ≤ length self.old.text.now }
        ensures found { place_of result ≡ partner brace_open brace_close 0 from (drop from self.old.text.now) }
        ensures same { self.new.text.now ≡ self.old.text.now }
    {
        if self.is_open(from) {
            return None;
        }
        let end = self.partner(from);
        if end.is_none() {
            self.older = self.latest;
            self.latest = Some(from);
        }
        end
    }
}
