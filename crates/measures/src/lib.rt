// What is measured of a function's body: the cyclomatic number, the nesting and the lines.
// A body is walked by whole pieces, so that `iffy` is not read as `if`: `walk_from` finds its end and its measures in one pass, `walk` is given a
// body that was found.
#![tactic(auto)]

ghost use Rattle.std.specs.Prelude.{◌≡◌, false, true, [], ◌∷◌, ◌+◌, ◌≤◌, ◌<◌, length, drop, get_or};
ghost use Rattle.text_rules.specs.Bytes.{among, ascii};
ghost use Rattle.text_rules.specs.Classes.{brace_open, is_letter, is_word};
ghost use Rattle.text_rules.specs.Search.{run};
ghost use Rattle.source_rules.specs.Measures.{cyclomatic_of, is_pair};
ghost use Rattle.measures.specs.Walks.{Measured, PieceAt, WalkedFrom};

use classes::Classes;

// The place behind the word that stands at a place.
// Kept: it is `end_while` of seek with a test, as `word_end` of search is. That one makes its table at each call, this one is lent it for a body.
fn word_end(table: &Classes, s: &[u8], from: usize) -> usize
    requires { from ≤ length s.now }
    ensures end { result ≡ from + run is_word (drop from s.now) }
    ensures inside { result ≤ length s.now }
{
    seek::end_while(s, from, |b| table.is_word(b))
}

// Whether a word adds 1 to the cyclomatic number. `match` does not: its arms do. `else` does not: its `if` does.
fn decides_word(word: &[u8]) -> bool
    ensures { result ≡ among word.now (ascii "if" ∷ ascii "while" ∷ ascii "for" ∷ ascii "loop" ∷ []) }
{
    matches!(word, b"if" | b"while" | b"for" | b"loop")
}

// Whether two bytes are && or || or =>.
#[tactic(auto, using(crate::proofs::BodyLaws::pair_and, crate::proofs::BodyLaws::pair_or, crate::proofs::BodyLaws::pair_arrow, crate::proofs::BodyLaws::no_pair))]
fn is_pair(b: u8, c: u8) -> bool
    ensures { result ≡ is_pair (b ∷ c ∷ []) }
{
    matches!((b, c), (b'&', b'&') | (b'|', b'|') | (b'=', b'>'))
}

// A piece of a body: a word, a pair, or one byte, up to `end`.
// Kept: each has an end, whether it decides or not, so the two are no option.
#[derive(Clone, Copy)]
struct Piece {
    end: usize,
    decides: bool,
}

// The word at a place where a letter stands.
fn word_at(table: &Classes, s: &[u8], at: usize) -> Piece
    requires { (at < length s.now) × (is_letter (get_or s.now at 0) ≡ true) }
    ensures { PieceAt s.now at result }
{
    let end = word_end(table, s, at);
    Piece {
        end,
        decides: decides_word(&s[at..end]),
    }
}

// The piece at a place where no letter stands.
fn mark_at(s: &[u8], at: usize) -> Piece
    requires { (at < length s.now) × (is_letter (get_or s.now at 0) ≡ false) }
    ensures { PieceAt s.now at result }
{
    let b = s[at];
    if is_pair(b, seek::byte(s, at + 1)) {
        return Piece {
            end: at + 2,
            decides: true,
        };
    }
    Piece {
        end: at + 1,
        decides: b == b'?',
    }
}

// The piece at a place.
fn piece_at(table: &Classes, body: &[u8], at: usize) -> Piece
    requires { (at < length body.now) }
    ensures { PieceAt body.now at result }
{
    if table.is_letter(body[at]) {
        return word_at(table, body, at);
    }
    mark_at(body, at)
}

// 1, and 1 for each piece that decides.
fn cyclomatic(body: &[u8]) -> usize
    ensures { result ≡ cyclomatic_of body.now }
{
    let table = classes::table();
    let mut n = 1;
    let mut at = 0;
    // Kept: a piece may be of any length, so no `for` counts the steps.
    while at < body.len() {
        let p = piece_at(&table, body, at);
        at = p.end;
        n += usize::from(p.decides);
    }
    n
}

// What is measured of a body.
#[derive(Clone, Copy)]
pub struct Walked {
    pub cyclomatic: usize,
    pub nesting: usize,
    pub lines: usize,
}

// The measures of a body. A brace that closes nothing leaves the depth at 0.
pub fn walk(body: &[u8]) -> Walked
    ensures { Measured result body.now }
{
    let n = cyclomatic(body);
    let mut depth: usize = 0;
    let mut nesting: usize = 0;
    let mut lines = 1;
    for b in body {
        match *b {
            b'{' => {
                depth += 1;
                nesting = nesting.max(depth);
            }
            b'}' => depth = depth.saturating_sub(1),
            b'\n' => lines += 1,
            _ => {}
        }
    }
    Walked {
        cyclomatic: n,
        nesting,
        lines,
    }
}

// The place of a body's closing brace, and the measures from the opening one through it.
#[derive(Clone, Copy)]
pub struct Body {
    pub end: usize,
    pub measures: Walked,
}

// The body whose opening brace stands at a place, if it is closed. `depth` counts the braces that are open inside it. The commonest bytes are tested
// first.
pub fn walk_from(s: &[u8], from: usize) -> Option<Body>
    requires { (from < length s.now) × (get_or s.now from 0 ≡ brace_open) }
    ensures { WalkedFrom s.now from result }
{
    let table = classes::table();
    let mut depth: usize = 0;
    let mut nesting: usize = 1;
    let mut lines: usize = 1;
    let mut n: usize = 1;
    let mut at = from + 1;
    // Kept: a piece may be of any length, so no `for` counts the steps.
    while at < s.len() {
        let b = s[at];
        if b == b' ' {
            at += 1;
        } else if table.is_letter(b) {
            let p = word_at(&table, s, at);
            at = p.end;
            n += usize::from(p.decides);
        } else if b == b'\n' {
            at += 1;
            lines += 1;
        } else if b == b'{' {
            at += 1;
            depth += 1;
            nesting = nesting.max(depth + 1);
        } else if b == b'}' {
            if depth == 0 {
                return Some(Body {
                    end: at,
                    measures: Walked {
                        cyclomatic: n,
                        nesting,
                        lines,
                    },
                });
            }
            at += 1;
            depth -= 1;
        } else {
            let p = mark_at(s, at);
            at = p.end;
            n += usize::from(p.decides);
        }
    }
    None
}
