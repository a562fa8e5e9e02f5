// The lines of keys in a listing: that of one key, and those of all keys of a baseline whose lines are plain, copied as they are found.
#![tactic(auto)]

ghost use Rattle.std.specs.Prelude.{◌≡◌, [], ◌∷◌, ◌≤◌, ◌<◌, length, drop};
ghost use Rattle.text_rules.specs.Search.{part};
ghost use Rattle.baseline.specs.Ordered.{keys_in};
ghost use Rattle.listing.specs.Writes.{Room, Writes};
ghost use Rattle.listed_keys.specs.KeyLines.{key_lines};
ghost use Rattle.listed_keys.specs.Plain.{AllPlain, PlainOrNote, first_field, keys_at, line_end, second_tab, tab_from};

use listing::Writer;

const HASH: u8 = b'#';

const TAB: u8 = b'\t';

// The line of a key: two spaces, the key with a space for its tab, and LF.
pub fn write_key(w: &mut Writer<'_>, bytes: &[u8])
    requires { Room (key_lines (bytes.now ∷ [])) w.old }
    ensures { Writes (key_lines (bytes.now ∷ [])) w.old w.new }
{
    w.text(b"  ");
    w.spaced(bytes);
    w.text(b"\n");
}

// A line's field, up to the next tab, which is there. The answer is the tab's place.
// Kept: a byte is sought and written in one step. To seek the tab first and write the part up to it reads each byte twice.
fn write_field(lines: &[u8], from: usize, w: &mut Writer<'_>) -> usize
    requires inside { tab_from lines.now from < length lines.now }
    requires room { Room (first_field (drop from lines.now)) w.old }
    ensures tab { result ≡ tab_from lines.now from }
    ensures written { Writes (first_field (drop from lines.now)) w.old w.new }
{
    let mut place = from;
    // The compiler keeps what `w` points to in memory, so its place is counted beside it.
    let mut at = w.at;
    while lines[place] != TAB {
        w.out[at] = lines[place];
        at += 1;
        place += 1;
    }
    w.at = at;
    place
}

// The line of a key that goes up to the second tab, behind which an LF stands. Path and name are copied as they are. The answer is where the line
// ends in the baseline.
fn write_plain(lines: &[u8], from: usize, w: &mut Writer<'_>) -> usize
    requires inside { line_end lines.now (second_tab lines.now from) < length lines.now }
    requires room { Room (key_lines (part from (second_tab lines.now from) lines.now ∷ [])) w.old }
    ensures end { result ≡ line_end lines.now (second_tab lines.now from) }
    ensures written { Writes (key_lines (part from (second_tab lines.now from) lines.now ∷ [])) w.old w.new }
{
    w.text(b"  ");
    let path_end = write_field(lines, from, w);
    w.text(b" ");
    let name_end = write_field(lines, path_end + 1, w);
    w.text(b"\n");
    baseline::near_line_end(lines, name_end)
}

// The line of the key of a line that is plain. One that starts with # has none. The answer is where the line ends in the baseline.
fn write_entry(lines: &[u8], from: usize, w: &mut Writer<'_>) -> usize
    requires inside { from < length lines.now }
    requires plain { PlainOrNote lines.now from }
    requires room { Room (key_lines (keys_at lines.now from)) w.old }
    ensures end { result ≡ line_end lines.now from }
    ensures high { result ≤ length lines.now }
    ensures written { Writes (key_lines (keys_at lines.now from)) w.old w.new }
{
    if lines[from] == HASH {
        return baseline::line_end(lines, from);
    }
    write_plain(lines, from, w)
}

// The lines of all keys, where every line is plain or starts with #: the key is copied as it is found.
pub fn write_whole(lines: &[u8], w: &mut Writer<'_>)
    requires plain { AllPlain lines.now }
    requires room { Room (key_lines (keys_in lines.now)) w.old }
    ensures { Writes (key_lines (keys_in lines.now)) w.old w.new }
{
    let mut from = 0;
    // Kept: an iterator of lines seeks each line's end from its start, which is sought here behind the copied key. Tried: with it 200,000 stale lines
    // take 5 % longer.
    while from < lines.len() {
        from = write_entry(lines, from, w) + 1;
    }
}
