// The baseline: its lines, their fields, its numbers and its keys. Lines and keys are parts of the text, and nothing is copied.
#![tactic(auto)]

ghost use Rattle.std.specs.Prelude.{◌≡◌, true, false, ◌+◌, ◌*◌, ◌-◌, ◌≤◌, ◌<◌, ◌⊎◌, length, drop, get_or, MatchOption, IfSome};
ghost use Rattle.text_rules.specs.Bytes.{same};
ghost use Rattle.text_rules.specs.Classes.{is_digit, lf, tab};
ghost use Rattle.text_rules.specs.Decimal.{numeral, parse_number};
ghost use Rattle.text_rules.specs.Search.{bytes_before, part};
ghost use Rattle.text_rules.specs.Utf8.{is_utf8};
ghost use Rattle.gate_rules.specs.Baseline.{entry_of, entry_with};
ghost use Rattle.std.specs.Iterator.{at_most};
ghost use Rattle.baseline.specs.Plain.{Digits, Front, NumberField, ReadPlain, Text};
ghost use Rattle.baseline.specs.Reads.{Inside, KeyFrom, PathEnds, entry_in, key_bytes, key_of_entry, key_text, line_at, number_of};
ghost use Rattle.baseline.specs.LinesOf.{LineAt, LinesGive};

const TAB: u8 = b'\t';

const LF: u8 = b'\n';

const CR: u8 = b'\r';

const HASH: u8 = b'#';

const MAX_U32: u64 = u32::MAX as u64;

// The place of the next `x`, or the text's length.
fn next(s: &[u8], from: usize, x: u8) -> usize
    requires { from ≤ length s.now }
    ensures { (result ≡ from + bytes_before x (drop from s.now)) × (from ≤ result) × (result ≤ length s.now) }
{
    seek::end_while(s, from, |b| b != x)
}

// Where a line ends: at the next LF, or at the end of the text.
pub fn line_end(s: &[u8], from: usize) -> usize
    requires { from ≤ length s.now }
    ensures { (result ≡ from + bytes_before lf (drop from s.now)) × (from ≤ result) × (result ≤ length s.now) }
{
    next(s, blocks::past(s, from, LF), LF)
}

// The same, for a place that few bytes stand behind in its line: no block is asked.
pub fn near_line_end(s: &[u8], from: usize) -> usize
    requires { from ≤ length s.now }
    ensures { (result ≡ from + bytes_before lf (drop from s.now)) × (from ≤ result) × (result ≤ length s.now) }
{
    next(s, from, LF)
}

// Where the bytes of a line end: before one CR, where an LF ends the line.
pub fn trimmed_end(s: &[u8], from: usize, end: usize) -> usize
    requires { (from ≤ end) × (end ≤ length s.now) }
    ensures { (part from result s.now ≡ line_at s.now from end) × (from ≤ result) × (result ≤ end) }
{
    if end == s.len() {
        return end;
    }
    if from == end {
        return end;
    }
    if s[end - 1] == CR {
        return end - 1;
    }
    end
}

// A line: where it begins, its bytes, and where the line behind it begins.
#[derive(Clone, Copy)]
pub struct Line<'a> {
    pub from: usize,
    pub bytes: &'a [u8],
    pub next: usize,
}

// The line that begins at a place.
pub fn line_at(s: &[u8], from: usize) -> Line<'_>
    requires { from ≤ length s.now }
    ensures { LineAt s.now from result }
{
    let end = line_end(s, from);
    let to = trimmed_end(s, from, end);
    Line {
        from,
        bytes: &s[from..to],
        next: end + 1,
    }
}

// The lines of a text from a place on, in their order.
#[derive(Clone, Copy)]
pub struct Lines<'a> {
    pub text: &'a [u8],
    pub at: usize,
}

impl<'a> Lines<'a> {
    // All lines of a text.
    pub fn of(text: &'a [u8]) -> Lines<'a>
        ensures { (result.text.now ≡ text.now) × (result.at ≡ 0) }
    {
        Lines { text, at: 0 }
    }

    // Those from a place on, at which a line begins.
    pub fn from_place(text: &'a [u8], at: usize) -> Lines<'a>
        ensures { (result.text.now ≡ text.now) × (result.at ≡ at) }
    {
        Lines { text, at }
    }
}

impl<'a> Iterator for Lines<'a> {
    type Item = Line<'a>;

    ghost next_gives = { LinesGive };

    ghost remaining = { λ s. at_most (length s.text.now - s.at) };

    fn next(&mut self) -> Option<Line<'a>> {
        if self.text.len() <= self.at {
            return None;
        }
        let line = line_at(self.text, self.at);
        self.at = line.next;
        Some(line)
    }
}

// Where a field of a line ends: at the next tab, or at the end of the line.
pub fn field_end(line: &[u8], from: usize) -> usize
    requires { from ≤ length line.now }
    ensures { (result ≡ from + bytes_before tab (drop from line.now)) × (from ≤ result) × (result ≤ length line.now) }
{
    next(line, from, TAB)
}

// A number with one digit more, within the limit. It may be past the largest u64.
#[tactic(auto, unfolding(text_rules::specs::Classes::is_digit))]
fn with_digit(n: u64, b: u8, limit: u64) -> Option<u64>
    ensures { MatchOption result
        ((is_digit b ≡ false) ⊎ (limit < n * 10 + (b - 48)))
        (λ m. (is_digit b ≡ true) × (m ≡ n * 10 + (b - 48)) × (m ≤ limit)) }
{
    if !b.is_ascii_digit() {
        return None;
    }
    let more = n.checked_mul(10)?.checked_add(u64::from(b - b'0'))?;
    if more <= limit { Some(more) } else { None }
}

// One or more digits, within the limit. A number only grows with its digits, so one that is past the limit stays past it.
fn digits(s: &[u8], limit: u64) -> Option<u64>
    ensures { number_of result ≡ numeral limit s.now }
{
    if s.is_empty() {
        return None;
    }
    let mut n = 0;
    for b in s {
        n = with_digit(n, *b, limit)?;
    }
    Some(n)
}

// One or more digits after an optional `+`, within the limit.
pub fn number(s: &[u8], limit: u64) -> Option<u64>
    ensures { number_of result ≡ parse_number limit s.now }
{
    if seek::byte(s, 0) == b'+' {
        return digits(&s[1..], limit);
    }
    digits(s, limit)
}

// An entry of the baseline. Its path ends at `path_end`, its name stands behind the tab there and ends at `name_end`.
#[derive(Drop)]
pub struct Listed {
    pub path_end: usize,
    pub name_end: usize,
    pub cyclomatic: u32,
    pub lines: u64,
}

// The entry of a line with four fields that end at the four places, if both numbers are read.
fn measured(line: &[u8], a: usize, b: usize, c: usize, d: usize) -> Option<Listed>
    requires { (a < b) × (b < c) × (c < d) × (d ≤ length line.now) × (get_or line.now a 0 ≡ tab) }
    ensures { Inside line.now result
        × (entry_in line.now result ≡ entry_with (part 0 a line.now) (part (a + 1) b line.now)
        (parse_number 4294967295 (part (b + 1) c line.now))
        (parse_number 18446744073709551615 (part (c + 1) d line.now)))
        × PathEnds result a }
{
    let cyclomatic = number(&line[b + 1..c], MAX_U32)? as u32;
    let lines = number(&line[c + 1..d], u64::MAX)?;
    Some(Listed {
        path_end: a,
        name_end: b,
        cyclomatic,
        lines,
    })
}

// Where the field ends that stands behind the one that ends at a place, if the line goes on there.
fn next_field(line: &[u8], end: usize) -> Option<usize>
    requires { end ≤ length line.now }
    ensures { MatchOption result (end ≡ length line.now) (λ next. (next ≡ end + 1 + bytes_before tab (drop (end + 1) line.now))
        × (end < next)
        × (next ≤ length line.now)) }
{
    if end == line.len() {
        return None;
    }
    Some(field_end(line, end + 1))
}

// The entry of a line whose first field ends at a place: four fields, of which the last two are numbers. A line that starts with # has none.
fn entry_with(line: &[u8], a: usize) -> Option<Listed>
    requires { (a ≡ bytes_before tab line.now) × (a ≤ length line.now) }
    ensures { Inside line.now result × (entry_in line.now result ≡ entry_of line.now) × PathEnds result a }
{
    if seek::byte(line, 0) == HASH {
        return None;
    }
    let b = next_field(line, a)?;
    let c = next_field(line, b)?;
    let d = next_field(line, c)?;
    measured(line, a, b, c, d)
}

// The entry of a line.
pub fn entry(line: &[u8]) -> Option<Listed>
    ensures { Inside line.now result × (entry_in line.now result ≡ entry_of line.now) }
{
    let path = field_end(line, 0);
    entry_with(line, path)
}

// ---- lines as update writes them

// Where text ends that stands at a place: at the next byte up to LF, as tab and LF are, or at the end.
fn text_end(s: &[u8], from: usize) -> usize
    requires { from ≤ length s.now }
    ensures { (from ≤ result) × (result ≤ length s.now) × Text s.now from result }
{
    seek::end_while(s, from, |b| b > LF)
}

// Where the digits at a place end.
fn digits_end(s: &[u8], from: usize) -> usize
    requires { from ≤ length s.now }
    ensures { (from ≤ result) × (result ≤ length s.now) × Digits s.now from result }
{
    seek::end_while(s, from, |b| b.is_ascii_digit())
}

// Where one to nine digits end that the byte `x` follows, if they stand at a place. Nine digits fit into 32 bits.
fn number_end(s: &[u8], from: usize, x: u8) -> Option<usize>
    requires { from ≤ length s.now }
    ensures { IfSome result (λ to. NumberField s.now from to x) }
{
    let end = digits_end(s, from);
    if end <= from {
        return None;
    }
    if 9 < end - from {
        return None;
    }
    if *s.get(end)? != x {
        return None;
    }
    Some(end)
}

// A line that is read in one walk: the bytes of its path, where its name ends, and where it ends.
#[derive(Clone, Copy)]
pub struct Bounds {
    pub path: usize,
    pub name: usize,
    pub end: usize,
}

// The numbers of a line whose path ends at one place and whose name ends at another, where a tab stands.
fn plain_numbers(s: &[u8], from: usize, a: usize, b: usize) -> Option<Bounds>
    requires { Front s.now from a b × (b < length s.now) × (get_or s.now b 0 ≡ tab) }
    ensures { ReadPlain s.now from result }
{
    let c = number_end(s, b + 1, TAB)?;
    let end = number_end(s, c + 1, LF)?;
    Some(Bounds {
        path: a - from,
        name: b,
        end,
    })
}

// The rest of a line of which path, tab and text were read up to a place.
pub fn plain_rest(s: &[u8], from: usize, a: usize, at: usize) -> Option<Bounds>
    requires { Front s.now from a at }
    ensures { ReadPlain s.now from result }
{
    let b = text_end(s, at);
    if seek::byte(s, b) != TAB {
        return None;
    }
    plain_numbers(s, from, a, b)
}

// The line that begins at a place.
pub fn plain_line(s: &[u8], from: usize) -> Option<Bounds>
    requires { from < length s.now }
    ensures { ReadPlain s.now from result }
{
    if s[from] == HASH {
        return None;
    }
    let a = text_end(s, from);
    if seek::byte(s, a) != TAB {
        return None;
    }
    plain_rest(s, from, a, a + 1)
}

// The path and the name of a function, of which its key is made: path, tab and name.
#[derive(Clone, Copy)]
pub struct FunctionKey<'a> {
    pub path: &'a [u8],
    pub name: &'a [u8],
}

impl FunctionKey<'_> {
    // Whether the bytes are those of the key. The name is compared first: it tells the functions of a file apart.
    #[inline(always)]
    pub fn is(self, key: &[u8]) -> bool
        ensures { result ≡ same key.now (key_bytes self.entry) }
    {
        let n = self.path.len();
        if key.len() <= n {
            return false;
        }
        if key[n] != TAB {
            return false;
        }
        if !order::same_bytes(&key[n + 1..], self.name) {
            return false;
        }
        order::same_bytes(&key[..n], self.path)
    }
}

// The key of a line whose first field has `path` bytes. It stands in the line as it is: path, tab and name.
pub fn key_with(line: &[u8], path: usize) -> Option<&[u8]>
    requires { (path ≡ bytes_before tab line.now) × (path ≤ length line.now) }
    ensures { (key_text result ≡ key_of_entry (entry_of line.now)) × KeyFrom (key_text result) line.now path }
{
    let entry = entry_with(line, path)?;
    Some(&line[..entry.name_end])
}

// The key of a line.
pub fn key(line: &[u8]) -> Option<&[u8]>
    ensures { (key_text result ≡ key_of_entry (entry_of line.now)) × KeyFrom (key_text result) line.now (bytes_before tab line.now) }
{
    key_with(line, field_end(line, 0))
}

// The measures that an entry accepts.
#[derive(Clone, Copy)]
pub struct Recorded {
    pub cyclomatic: u32,
    pub lines: u64,
}

impl From<Listed> for Recorded {
    ghost from_gives = { λ l r. (r.cyclomatic ≡ l.cyclomatic) × (r.lines ≡ l.lines) };

    fn from(l: Listed) -> Recorded {
        Recorded {
            cyclomatic: l.cyclomatic,
            lines: l.lines,
        }
    }
}

// A baseline of at most 32 MB: what check accepts. So a place in it fits into 32 bits, and the sizes of its texts into a usize.
#[derive(Clone, Copy)]
pub struct Baseline<'a> {
    pub lines: &'a [u8],
    pub ghost short: { length lines.now ≤ 33554432 },
}

// A baseline that is not UTF-8 has no entry.
pub fn readable(baseline: &[u8]) -> bool
    ensures { result ≡ is_utf8 baseline.now }
{
    utf8::is_utf8(baseline)
}
