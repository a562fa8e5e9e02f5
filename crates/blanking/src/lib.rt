// Blanking of Rust source text: comments and literals become spaces, newlines stay.
// A token is first measured (`tokens`) and then written as spaces; blocks in which none begins are copied whole. Each byte is passed a bounded
// number of times.
#![tactic(auto)]

ghost use Rattle.std.specs.Prelude.{◌≡◌, ◌++◌, ◌+◌, ◌≤◌, ◌<◌, length, take, drop};
ghost use Rattle.text_rules.specs.Search.{part};
ghost use Rattle.source_rules.specs.Blank.{blanked, put};
ghost use Rattle.blanking.specs.Bare.{AllBare, Answered, NoToken, blank_answer, finished};

use answers::Refusal;
use tokens::{APOSTROPHE, HASH, LF, QUOTE, SLASH};

const SPACE: u8 = b' ';

// The most bytes that a text may have.
const MAX_TEXT: usize = 16777216;

// The bytes that are passed by steps before blocks are tested again. Fewer make a text that is dense in tokens slower, more an ordinary one.
const STRETCH: usize = 32;

// A byte of a token as it stands in the blanked text.
fn blank_byte(b: u8) -> u8
    ensures { result ≡ put 1 b }
{
    if b == LF { LF } else { SPACE }
}

// A place in a text up to which the output is written.
// Kept: not the cursor of tokens, since a crate gives methods to its own types alone: that one measures, this one writes.
// Kept: text and output stand beside it. A step hands back the next cursor, and one that holds the output is not copied.
#[derive(Clone, Copy)]
struct Cursor {
    at: usize,
}

impl Cursor {
    // Writes a token, which goes on from here to `end`.
    fn fill(self, text: &[u8], output: &mut [u8], end: usize) -> Cursor
        requires { (self.at ≤ end) × (end ≤ length text.now) × (length text.now ≤ length output.old) }
        ensures { (result.at ≡ end) × (finished text.now output.new end end ≡ finished text.now output.old self.at end) }
    {
        for at in self.at..end {
            output[at] = blank_byte(text[at]);
        }
        Cursor { at: end }
    }

    // Writes the token that opens here, or else the byte here, and goes past it.
    fn step(self, text: &[u8], output: &mut [u8]) -> Cursor
        requires { (self.at < length text.now) × (length text.now ≤ length output.old) }
        ensures { (self.at < result.at)
            × (result.at ≤ length text.now)
            × (finished text.now output.new result.at result.at ≡ finished text.now output.old self.at self.at) }
    {
        let at = self.at;
        match (tokens::Cursor { at }).token(text) {
            Some(token) => self.fill(text, output, token.at),
            None => {
                output[at] = text[at];
                Cursor { at: at + 1 }
            }
        }
    }
}

// Past the blocks from a place on that have none of the bytes by which a token is told. A byte is compared with all four, so that the compiler tests
// a block at once.
fn bare_end(s: &[u8], from: usize) -> usize
    requires { from ≤ length s.now }
    ensures { (from ≤ result) × (result ≤ length s.now) × AllBare s.now from result }
{
    blocks::past_while(s, from, |b| {
        (b != SLASH) & (b != QUOTE) & (b != APOSTROPHE) & (b != HASH)
    })
}

// Past bytes at which no token begins. The last two before a mark may be the letters of a raw opening, so they are left.
fn plain_end(s: &[u8], from: usize) -> usize
    requires { from ≤ length s.now }
    ensures { (from ≤ result) × (result ≤ length s.now) × NoToken s.now from result }
{
    let to = bare_end(s, from);
    if to - from < 2 {
        return from;
    }
    to - 2
}

// Writes bytes at which no token begins.
fn copy(text: &[u8], output: &mut [u8], from: usize, to: usize)
    requires { (from ≤ to) × (to ≤ length text.now) × (length text.now ≤ length output.old) × NoToken text.now from to }
    ensures { finished text.now output.new to to ≡ finished text.now output.old from from }
{
    // Kept: `copy_from_slice` calls memmove, a name that the archive for C would need from outside.
    for at in from..to {
        output[at] = text[at];
    }
}

impl Cursor {
    // Writes token by token and byte by byte from here to `end`, or past it.
    fn steps(self, text: &[u8], output: &mut [u8], end: usize) -> Cursor
        requires { (self.at ≤ end) × (end ≤ length text.now) × (length text.now ≤ length output.old) }
        ensures { (end ≤ result.at)
            × (result.at ≤ length text.now)
            × (finished text.now output.new result.at result.at ≡ finished text.now output.old self.at self.at) }
    {
        let mut here = self;
        // Kept: a token may be of any length, so no `for` counts the steps.
        while here.at < end {
            here = here.step(text, output);
        }
        here
    }

    // Writes the plain bytes here, and then some bytes by steps.
    fn pass(self, text: &[u8], output: &mut [u8]) -> Cursor
        requires { (self.at < length text.now) × (length text.now ≤ length output.old) }
        ensures { (self.at < result.at)
            × (result.at ≤ length text.now)
            × (finished text.now output.new result.at result.at ≡ finished text.now output.old self.at self.at) }
    {
        let at = self.at;
        let to = plain_end(text, at);
        copy(text, output, at, to);
        let end = to + STRETCH.min(text.len() - to);
        Cursor { at: to }.steps(text, output, end)
    }
}

// The blanked text, in the place of the output's first bytes.
fn blank_all(text: &[u8], output: &mut [u8])
    requires { length text.now ≤ length output.old }
    ensures { output.new ≡ blanked text.now ++ drop (length text.now) output.old }
{
    let mut here = Cursor { at: 0 };
    // Kept: a token may be of any length, so no `for` counts the steps.
    while here.at < text.len() {
        here = here.pass(text, output);
    }
}

// Blanks a text into the first bytes of the output, and answers how many these are. The refusals 1 and 5 leave the output as it is.
pub fn blank(text: &[u8], output: &mut [u8]) -> Result<u32, Refusal>
    ensures { Answered text.now output.old (blank_answer result) output.new }
{
    if MAX_TEXT < text.len() {
        return Err(Refusal::Length);
    }
    if output.len() < text.len() {
        return Err(Refusal::Work);
    }
    blank_all(text, output);
    Ok(text.len() as u32)
}

// Blanks the text from `a` to `e` of a tree into the same place of a work buffer.
pub fn blank_part(tree: &[u8], work: &mut [u8], a: usize, e: usize)
    requires { (a ≤ e) × (e ≤ length tree.now) × (length tree.now ≤ length work.old) }
    ensures { work.new ≡ take a work.old ++ blanked (part a e tree.now) ++ drop e work.old }
{
    blank_all(&tree[a..e], &mut work[a..e]);
}
