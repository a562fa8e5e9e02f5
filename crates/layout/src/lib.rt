// The layout of a tree file: its entries one behind another, and where the path and the text of each file stand.
#![tactic(auto)]

ghost use Rattle.std.specs.Prelude.{◌≡◌, true, ◌+◌, ◌<◌, ◌≤◌, length};
ghost use Rattle.gate_rules.specs.Tree.{entry_at, file_count, is_laid_out, path_at, path_length, path_offset, text_in, text_length, text_offset};
ghost use Rattle.layout.specs.Entry.{entry_in, fits};

use std::ops::Range;

// The files of a tree, and the bytes of a path.
pub const MAX_FILES: usize = 1024;

pub const MAX_PATH: usize = 1024;

// An entry of the table: where the path and the text of a file begin, and how many bytes they have.
#[derive(Clone, Copy, PartialEq, Eq, Debug)]
struct Entry {
    path: u32,
    path_length: u32,
    text: u32,
    text_length: u32,
}

impl Entry {
    // The entry that begins at a place.
    fn read(tree: &[u8], at: usize) -> Entry
        requires { at + 16 ≤ length tree.now }
        ensures { result ≡ entry_in tree.now at }
    {
        Entry {
            path: words::get_u32(tree, at),
            path_length: words::get_u32(tree, at + 4),
            text: words::get_u32(tree, at + 8),
            text_length: words::get_u32(tree, at + 12),
        }
    }

    // Where the path stands.
    fn path(self) -> Range<usize>
        ensures from { result.start ≡ self.path }
        ensures to { result.end ≡ self.path + self.path_length }
    {
        let from = self.path as usize;
        from..from + self.path_length as usize
    }

    // Where the text stands.
    fn text(self) -> Range<usize>
        ensures from { result.start ≡ self.text }
        ensures to { result.end ≡ self.text + self.text_length }
    {
        let from = self.text as usize;
        from..from + self.text_length as usize
    }

    // The path begins at the running place, and no number leaves the tree, which has so many bytes, or a limit.
    fn fits(self, running: usize, size: usize) -> bool
        requires { running < 8589934592 }
        ensures { result ≡ fits self running size }
    {
        let path_length = self.path_length as usize;
        let text = self.text();
        self.path as usize == running
            && 1 <= path_length
            && path_length <= MAX_PATH
            && text.start == running + path_length
            && text.end <= size
    }
}

// The layout and its limits are kept, to the last byte.
pub fn laid_out(tree: &[u8]) -> bool
    ensures { result ≡ is_laid_out tree.now }
{
    if tree.len() < 4 {
        return false;
    }
    let n = file_count(tree);
    if n > MAX_FILES {
        return false;
    }
    let table = 4 + 16 * n;
    if tree.len() < table {
        return false;
    }
    let mut running = table;
    for k in 0..n {
        let entry = Entry::read(tree, 4 + 16 * k);
        if !entry.fits(running, tree.len()) {
            return false;
        }
        running = entry.text().end;
    }
    running == tree.len()
}

// The number of files.
#[tactic(auto, unfolding(gate_rules::specs::Tree::file_count))]
pub fn file_count(tree: &[u8]) -> usize
    requires { 4 ≤ length tree.now }
    ensures { (result ≡ file_count tree.now) × (result < 4294967296) }
{
    words::get_u32(tree, 0) as usize
}

// The entry of a file.
fn entry_of(tree: &[u8], k: usize) -> Entry
    requires laid { is_laid_out tree.now ≡ true }
    requires few { k < file_count tree.now }
    ensures entry { result ≡ entry_in tree.now (entry_at k) }
    ensures path_inside { result.path + result.path_length ≤ length tree.now }
    ensures text_inside { result.text + result.text_length ≤ length tree.now }
{
    Entry::read(tree, 4 + 16 * k)
}

// Kept: the path and the text of a file have functions of their own, here and above. The definitions have a word for each of the four numbers, and
// one function for both would take a selector and state both contracts.

// Kept: `laid` and `few` stand in each contract. A struct of a tree that is laid out would spare five clauses here, and each of the six functions that
// call these holds the bytes and would have to make one.

// Where the path of a file stands.
pub fn path_span(tree: &[u8], k: usize) -> Range<usize>
    requires { (is_laid_out tree.now ≡ true) × (k < file_count tree.now) }
    ensures { (result.start ≡ path_offset tree.now (entry_at k))
        × (result.end ≡ path_offset tree.now (entry_at k) + path_length tree.now (entry_at k))
        × (result.start ≤ result.end)
        × (result.end ≤ length tree.now) }
{
    entry_of(tree, k).path()
}

// Where the text of a file stands.
pub fn text_span(tree: &[u8], k: usize) -> Range<usize>
    requires { (is_laid_out tree.now ≡ true) × (k < file_count tree.now) }
    ensures { (result.start ≡ text_offset tree.now (entry_at k))
        × (result.end ≡ text_offset tree.now (entry_at k) + text_length tree.now (entry_at k))
        × (result.start ≤ result.end)
        × (result.end ≤ length tree.now) }
{
    entry_of(tree, k).text()
}

// The path of a file.
pub fn path(tree: &[u8], k: usize) -> &[u8]
    requires laid { is_laid_out tree.now ≡ true }
    requires few { k < file_count tree.now }
    ensures { result.now ≡ path_at tree.now (entry_at k) }
{
    &tree[path_span(tree, k)]
}

// The text of a file.
pub fn text(tree: &[u8], k: usize) -> &[u8]
    requires laid { is_laid_out tree.now ≡ true }
    requires few { k < file_count tree.now }
    ensures { result.now ≡ text_in tree.now (entry_at k) }
{
    &tree[text_span(tree, k)]
}
