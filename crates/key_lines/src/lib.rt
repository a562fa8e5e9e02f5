// The lines of a baseline one behind another: the key of a line, and how it stands to the last key in front of it. What a line has in common with the
// last key is not read again.
#![tactic(auto)]

ghost use Rattle.std.specs.Prelude.{◌≡◌, false, ◌≤◌, ◌<◌, length};
ghost use Rattle.std.specs.Option.{ForSome};
ghost use Rattle.text_rules.specs.Classes.{tab};
ghost use Rattle.text_rules.specs.Search.{bytes_before, part};
ghost use Rattle.gate_rules.specs.Baseline.{entry_of};
ghost use Rattle.prefix.specs.Common.{common_with};
ghost use Rattle.baseline.specs.Plain.{ReadPlain};
ghost use Rattle.baseline.specs.Reads.{key_of_entry};
ghost use Rattle.key_lines.specs.Keys.{Begins, is_plain, text_of};
ghost use Rattle.key_lines.specs.Meets.{OfLine};

use baseline::Bounds;

mod found;
mod key;

pub use found::Found;
pub use key::Key;

// How many bytes a text has in common with the last key.
pub fn common_with(last: Option<Key>, text: &[u8]) -> usize
    ensures { result ≡ common_with (text_of last.entry) text.now }
{
    last.map_or(0, |l| prefix::common(l.bytes, text))
}

// The bytes of the path of a line: those of the last key, where the line begins with its path and its tab.
fn path_length(line: &[u8], last: Option<Key>, common: usize) -> usize
    requires { common ≡ common_with (text_of last) line.now }
    ensures { (result ≡ bytes_before tab line.now) × (result ≤ length line.now) }
{
    match last {
        Some(l) if l.path < common => l.path,
        _ => baseline::field_end(line, 0),
    }
}

// The key of a line whose path has so many bytes.
fn line_key(line: &[u8], path: usize) -> Option<Key<'_>>
    requires { (path ≡ bytes_before tab line.now) × (path ≤ length line.now) }
    ensures { (text_of result ≡ key_of_entry (entry_of line.now))
        × Begins (text_of result) line.now
        × (is_plain result ≡ false)
        × ForSome result (λ k. k.path < length k.bytes.now) }
{
    let bytes = baseline::key_with(line, path)?;
    Some(Key {
        bytes,
        path,
        plain: false,
    })
}

// What is found in the line at a place, field by field.
fn any_line<'a>(lines: &'a [u8], last: Option<Key<'a>>, from: usize) -> Found<'a>
    requires { from ≤ length lines.now }
    ensures { OfLine lines.now from result × (result.last ≡ last.entry) }
{
    let line = baseline::line_at(lines, from);
    let common = common_with(last, line.bytes);
    let path = path_length(line.bytes, last, common);
    let key = line_key(line.bytes, path);
    Found {
        last,
        key,
        common,
        next: line.next,
    }
}

// The line at a place in one walk. What it has in common with a plain key that has its path is not read again.
fn plain_line(lines: &[u8], last: Option<Key>, from: usize, common: usize) -> Option<Bounds>
    requires { (from < length lines.now) × (common ≡ common_with (text_of last) (part from (length lines.now) lines.now)) }
    ensures { ReadPlain lines.now from result }
{
    match last {
        Some(l) if l.plain && l.path < common => {
            baseline::plain_rest(lines, from, from + l.path, from + common)
        }
        _ => baseline::plain_line(lines, from),
    }
}

// What is found in the line at a place.
pub fn line_at<'a>(lines: &'a [u8], last: Option<Key<'a>>, from: usize) -> Found<'a>
    requires { from < length lines.now }
    ensures { OfLine lines.now from result × (result.last ≡ last.entry) }
{
    let common = common_with(last, &lines[from..]);
    let Some(l) = plain_line(lines, last, from, common) else {
        return any_line(lines, last, from);
    };
    Found {
        last,
        key: Some(Key::plain(lines, from, l)),
        common,
        next: l.end + 1,
    }
}
