// The sums of a tree's files: first as plain numbers, by file number, and then as entries of the table that the caller lends.
#![tactic(auto)]

ghost use Rattle.std.specs.Prelude.{◌≡◌, map, ◌≤◌, ◌<◌, length, set, get_or};
ghost use Rattle.text_rules.specs.Bytes.{overwritten};
ghost use Rattle.gate_rules.specs.Gate.{gate};
ghost use Rattle.gate_rules.specs.ReportCall.{sums_of};
ghost use Rattle.gate_rules.specs.Tree.{file_count};
ghost use Rattle.sums.specs.Known.{Known};
ghost use Rattle.sums.specs.Sums.{entry, first_entries, none};

use functions::Functions;

// The sum of each file of a tree, by its number; 0 behind the last file. A tree has at most 1,024.
// Kept: an array of all 1,024 numbers. An ArrayVec holds the same array and a length beside it, which the tree tells already, and would have to be
// filled with as many zeros before the first sum is added.
#[derive(Clone, Copy)]
pub struct Totals<'a> {
    pub tree: &'a [u8],
    pub of: [u32; 1024],
    pub ghost known: { Known tree.now of },
}

// An entry of the lent table.
#[derive(Clone, Copy)]
pub struct FileSum {
    pub file: u32,
    pub sum: u32,
}

// The entry at `at` of a table is stored.
pub fn add(t: &mut [FileSum], at: usize, file: u32, sum: u32)
    requires { at < length t.old }
    ensures { t.new ≡ set t.old at (entry file sum) }
{
    t[at] = FileSum { file, sum };
}

// The entry at `at`.
pub fn read(table: &[FileSum], at: usize) -> FileSum
    requires { at < length table.now }
    ensures { result ≡ get_or table.now at none }
{
    table[at]
}

// The first n entries of a table: each file's number and its sum. The entries beyond remain.
pub fn fill(t: &mut [FileSum], of: &[u32; 1024], n: u32)
    requires { (n ≤ length t.old) × (n ≤ 1024) }
    ensures { t.new ≡ overwritten (first_entries of.now n) t.old }
{
    for i in 0..n {
        add(t, i as usize, i, of[i as usize]);
    }
}

impl<'a> Totals<'a> {
    ghost use Rattle.sums.specs.Sums.{stored};

    // The sums of all files, in one pass over the records of the functions.
    pub fn new(functions: Functions<'a>) -> Totals<'a>
        ensures { result.tree.now ≡ functions.entry.tree.now }
    {
        let mut of = [0u32; 1024];
        for k in 0..functions.count {
            let r = records::Record::get(functions.records, k * records::RECORD_WIDTH);
            let file = r.file as usize;
            of[file] += r.cyclomatic;
        }
        Totals {
            tree: functions.tree,
            of,
        }
    }

    // An entry for each file, its number and its sum, from the first entry on. The entries beyond remain.
    pub fn fill(&self, t: &mut [FileSum])
        requires { file_count self.now.tree.now ≤ length t.old }
        ensures { t.new ≡ overwritten (map stored (sums_of gate self.now.tree.now)) t.old }
    {
        fill(t, &self.of, layout::file_count(self.tree) as u32);
    }
}
