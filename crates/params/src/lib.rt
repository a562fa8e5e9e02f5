// The parameters of a function, counted in the text between the brackets of its list: the parts between the commas outside all inner brackets,
// without `self`. A list is counted between its first and its last byte that are not of white space.
#![tactic(auto)]

ghost use Rattle.std.specs.Prelude.{◌≡◌, ◌+◌, ◌≤◌, ◌<◌, length};
ghost use Rattle.text_rules.specs.Classes.{comma};
ghost use Rattle.text_rules.specs.Search.{ends_in, starts_with};
ghost use Rattle.source_rules.specs.Parameters.{counted, params_of, parts_from, takes_self};
ghost use Rattle.params.specs.Head.{head};

// The number of parts between the commas at depth 0. The depth may fall below 0, so what was opened and what was closed is counted apart.
fn parts(s: &[u8]) -> usize
    ensures { result ≡ parts_from 1 0 0 s.now }
{
    let mut n = 1;
    let mut opened: usize = 0;
    let mut closed: usize = 0;
    for b in s {
        match *b {
            b'(' | b'[' | b'<' => opened += 1,
            b')' | b']' | b'>' => closed += 1,
            b',' if opened == closed => n += 1,
            _ => {}
        }
    }
    n
}

// Whether the part before the first comma, read without & and spaces, begins with a word.
fn head_begins(s: &[u8], word: &[u8]) -> bool
    ensures { result ≡ starts_with word.now (head s.now) }
{
    let mut matched = 0;
    for b in s {
        if matched == word.len() {
            return true;
        }
        match *b {
            b',' => return false,
            b'&' | b' ' => {}
            kept => {
                if kept != word[matched] {
                    return false;
                }
                matched += 1;
            }
        }
    }
    matched == word.len()
}

// Whether the first part is self; `selfish: u8` counts as self.
#[tactic(auto, unfolding(source_rules::specs::Parameters::takes_self))]
fn takes_self(s: &[u8]) -> bool
    ensures { result ≡ takes_self s.now }
{
    head_begins(s, b"self") || head_begins(s, b"mutself")
}

// Whether the last byte is a comma.
fn ends_in_comma(s: &[u8]) -> bool
    requires { 0 < length s.now }
    ensures { result ≡ ends_in comma s.now }
{
    s.ends_with(b",")
}

// The parameters of a list that begins and ends with no white space: its parts, without the one behind a last comma and without self.
fn count_trimmed(s: &[u8]) -> usize
    requires { 0 < length s.now }
    ensures { result ≡ counted s.now }
{
    // It stops at 0, below which a list such as `self>,` would fall.
    parts(s)
        .saturating_sub(usize::from(ends_in_comma(s)))
        .saturating_sub(usize::from(takes_self(s)))
}

// The parameters of the text between the brackets, without self.
pub fn count_params(inner: &[u8]) -> usize
    ensures { (result ≡ params_of inner.now) × (result ≤ length inner.now + 1) }
{
    let from = utf8::white_end(inner);
    let to = utf8::text_end(inner);
    if to <= from {
        return 0;
    }
    count_trimmed(&inner[from..to])
}
