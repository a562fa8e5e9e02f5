// A walk over the lines of a baseline: the key of each line is looked up among the functions of a tree.

ghost use Rattle.std.specs.Prelude.{◌≤◌, length};
ghost use Rattle.gate_rules.specs.Gate.{gate};
ghost use Rattle.gate_rules.specs.Scan.{functions_of};
ghost use Rattle.in_order.specs.Paths.{Ranged};

use crate::next_line;
use baseline::Bounds;
use functions::Functions;
use key_lines::{Found, Key};
use listing::Size;
use live::Numbers;

const HASH: u8 = b'#';

// A step over a line: where the line begins, what is found in it, and the key that it adds to the stale ones.
#[derive(Clone, Copy)]
pub struct Step<'a> {
    pub from: usize,
    pub found: Found<'a>,
    pub added: Option<&'a [u8]>,
}

impl Step<'_> {
    ghost use Rattle.std.specs.Prelude.{◌≡◌, ◌<◌, ◌≢◌, true, get_or};
    ghost use Rattle.std.specs.Option.{is_some};
    ghost use Rattle.baseline.specs.Ordered.{one_key};
    ghost use Rattle.baseline.specs.Reads.{key_text};
    ghost use Rattle.key_lines.specs.Keys.{is_plain};
    ghost use Rattle.listed_keys.specs.KeyLines.{key_lines};

    // The size of the line of the key, where one is added.
    #[tactic(auto, using(listed_keys::specs::KeyLines::sizes_key, listed_keys::specs::KeyLines::none_bytes))]
    pub fn size(self) -> Size
        ensures count { result.count ≡ length (one_key (key_text self.entry.added)) }
        ensures bytes { result.bytes ≡ length (key_lines (one_key (key_text self.entry.added))) }
    {
        match self.added {
            Some(key) => Size {
                count: 1,
                bytes: 3 + key.len(),
            },
            None => Size::default(),
        }
    }

    // Whether the line may stand in a baseline that is stale as a whole: it is plain and adds its key, or starts with #.
    pub fn stays_whole(self, lines: &[u8]) -> bool
        requires { self.from < length lines.now }
        ensures { result ≡ true → get_or lines.now self.entry.from 0 ≢ 35
            → (is_plain self.entry.found.key ≡ true) × (is_some self.entry.added ≡ true) }
    {
        match self.found.key {
            Some(key) if key.plain => self.added.is_some(),
            _ => lines[self.from] == HASH,
        }
    }
}

// The lines of a baseline from a place on, the last key in front of it, and the functions that may have a key with its path.
#[derive(Clone, Copy)]
pub struct Walk<'a> {
    pub functions: Functions<'a>,
    pub lines: &'a [u8],
    pub from: usize,
    pub last: Option<Key<'a>>,
    pub alike: Numbers,
    pub ghost few: { alike.to ≤ functions.count },
    pub ghost ranged: { Ranged (functions_of gate functions.tree.now) last alike.from alike.to },
}

impl<'a> Walk<'a> {
    ghost use Rattle.std.specs.Prelude.{◌≡◌, ◌||◌, map, Some};
    ghost use Rattle.text_rules.specs.Bytes.{among};
    ghost use Rattle.gate_rules.specs.Functions.{key as fun_key};
    ghost use Rattle.baseline.specs.Ordered.{one_key};
    ghost use Rattle.baseline.specs.Reads.{key_text};
    ghost use Rattle.key_lines.specs.Keys.{repeats, text_of};
    ghost use Rattle.in_order.specs.InOrder.{added_by};
    ghost use Rattle.in_order.specs.Runs.{Passes};
    ghost use Rattle.in_order.specs.Walks.{Followed, Follows_on, Moved, ReadNext, Starts, latest};

    // At the first line.
    pub fn new(functions: Functions<'a>, lines: &'a [u8]) -> Walk<'a>
        ensures { Starts functions.entry lines.entry result }
    {
        Walk {
            functions,
            lines,
            from: 0,
            last: None,
            alike: Numbers { from: 0, to: 0 },
        }
    }

    // The functions that may have a key with the path of one that is found: those of the last key, where it has that path.
    fn alike(&self, found: Found<'a>, key: Key<'a>) -> Numbers
        requires { (found.last ≡ self.now.last) × (found.key ≡ Some key) }
        ensures few { result.to ≤ self.now.functions.count }
        ensures ranged { Ranged (functions_of gate self.now.functions.tree.now) (Some key.entry) result.from result.to }
    {
        match self.last {
            Some(last) if last.path < found.common => self.alike,
            _ => live::range(self.functions, key.bytes),
        }
    }

    // Behind the line in which this is found.
    fn pass(&mut self, found: Found<'a>)
        requires { found.last ≡ self.old.last }
        ensures { Moved self.old found.entry self.new }
    {
        if let Some(key) = found.key {
            self.alike = self.alike(found, key);
            self.last = Some(key);
        }
        self.from = found.next;
    }

    // Whether a key that is found adds nothing: it is the last one, or one of the functions that may have it does. The walk stands behind its line.
    fn is_known(&self, found: Found<'a>, key: Key<'a>) -> bool
        requires { (found.key ≡ Some key) × (self.now.last ≡ Some key) }
        ensures { result ≡ (repeats (text_of found.entry.last) key.entry.bytes.now
            || among key.entry.bytes.now (map fun_key (functions_of gate self.now.functions.tree.now))) }
    {
        if found.repeats() {
            return true;
        }
        live::any_has(self.functions, self.alike, key.bytes)
    }

    // The key that a line adds. The walk stands behind the line.
    fn added(&self, found: Found<'a>) -> Option<&'a [u8]>
        requires { self.now.last ≡ latest found.last found.key }
        ensures { one_key (key_text result)
            ≡ added_by (map fun_key (functions_of gate self.now.functions.tree.now)) (text_of found.entry.last) (text_of found.entry.key) }
    {
        let key = found.key?;
        if self.is_known(found, key) {
            return None;
        }
        Some(key.bytes)
    }

    // The line where the walk stands, if it is plain, no function has the path of the last key, and the line has that path and a key behind the last
    // one.
    fn following(&self) -> Option<Bounds>
        ensures { ReadNext self.now result }
    {
        let key = self.last?;
        if self.alike.from < self.alike.to {
            return None;
        }
        next_line(self.lines, key, self.from)
    }

    // Behind that line.
    fn follow(&mut self, line: Bounds)
        requires { Follows_on self.old line }
        ensures { Followed self.old line self.new }
    {
        self.last = Some(Key::plain(self.lines, self.from, line));
        self.from = line.end + 1;
    }

    // Past the lines that add their keys one after another, none of which has to be looked up. The answer is the size of the lines of these keys.
    pub fn run(&mut self) -> Size
        ensures { Passes self.old result self.new }
    {
        // The lines are passed by a copy of the walk, since the compiler keeps what `self` points to in memory.
        let mut walk = *self;
        let mut size = Size::default();
        // Kept: a line is read against the key of the line before it, which an iterator over lines does not know.
        while let Some(line) = walk.following() {
            size = size.plus(Size {
                count: 1,
                bytes: 3 + (line.name - walk.from),
            });
            walk.follow(line);
        }
        *self = walk;
        size
    }
}

impl<'a> Iterator for Walk<'a> {
    ghost use Rattle.std.specs.Prelude.{◌-◌};
    ghost use Rattle.std.specs.Iterator.{at_most};
    ghost use Rattle.in_order.specs.Walks.{WalkGives};

    type Item = Step<'a>;

    ghost next_gives = { WalkGives };

    ghost remaining = { λ s. at_most (length s.lines.now - s.from) };

    fn next(&mut self) -> Option<Step<'a>> {
        let from = self.from;
        if self.lines.len() <= from {
            return None;
        }
        let found = key_lines::line_at(self.lines, self.last, from);
        self.pass(found);
        let added = self.added(found);
        Some(Step { from, found, added })
    }
}
