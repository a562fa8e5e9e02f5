// The report's files: the ten with the greatest sums, and their rows.
#![tactic(auto)]

ghost use Rattle.std.specs.Prelude.{◌≡◌, List, [], ◌∷◌, ◌++◌, ℕ, ◌≤◌, ◌<◌, length, map, take};
ghost use Rattle.text_rules.specs.Selection.{Placed, placed_from};
ghost use Rattle.gate_rules.specs.Report.{Weight, heavier, weight_rows};
ghost use Rattle.gate_rules.specs.Tree.{file_count};
ghost use Rattle.listing.specs.Writes.{Room, Writes};
ghost use Rattle.order.specs.Chosen.{Decides};
ghost use Rattle.report_files.specs.Weights.{weight_at};
ghost use Rattle.report_files.specs.OneProof.{heavy_prop};
ghost use Rattle.report_files.specs.Files.{FileChosen, FileFit, Heavy, IsFile, file_at, file_first, file_row, heaviest_files, listed, number_in};

use listing::Writer;
use sums::Totals;

// How many files are told at most.
const MOST: usize = 10;

// Kept: here and below a file is its number, below the count of files, beside the sums of all. Two files are compared, and a struct of both would say
// in each contract that the two are of the same tree, which is no plainer than that each number is below the count.

// The path of a file.
fn path_at<'a>(totals: &Totals<'a>, k: usize) -> &'a [u8]
    requires { k < file_count totals.now.tree.now }
    ensures { (result.now ≡ (weight_at totals.now.tree.now k).path) × (length result.now ≤ 16777216) }
{
    layout::path(totals.tree, k)
}

// Its sum.
fn sum_at(totals: &Totals<'_>, k: usize) -> u32
    requires { k < file_count totals.now.tree.now }
    ensures { result ≡ (weight_at totals.now.tree.now k).sum }
{
    totals.of[k]
}

// The order of the files: by sum falling, and where it is the same by path bytes.
fn is_heavier(totals: &Totals<'_>, j: usize, k: usize) -> bool
    requires { (j < file_count totals.now.tree.now) × (k < file_count totals.now.tree.now) }
    ensures { result ≡ heavier (weight_at totals.now.tree.now j) (weight_at totals.now.tree.now k) }
{
    let sum = sum_at(totals, j);
    let other = sum_at(totals, k);
    if other < sum {
        return true;
    }
    if sum != other {
        return false;
    }
    order::before(path_at(totals, j), path_at(totals, k))
}

// The file j goes before k: it is heavier, and where neither is, it has the lower number.
fn goes_first(totals: &Totals<'_>, j: usize, k: usize) -> bool
    requires { (j < file_count totals.now.tree.now) × (k < file_count totals.now.tree.now) }
    ensures { result ≡ file_first totals.now.tree.now j k }
{
    if is_heavier(totals, j, k) {
        return true;
    }
    if is_heavier(totals, k, j) {
        return false;
    }
    j < k
}

// The file k has a function and is behind the last one listed. At first none is. A file with a function has a sum.
#[tactic(auto, using(crate::proofs::Unlisted::unlisted))]
fn is_next(totals: &Totals<'_>, last: Option<usize>, k: usize) -> bool
    requires { IsFile totals.now.tree.now last × (k < file_count totals.now.tree.now) }
    ensures { Decides (FileFit totals.now.tree.now (number_in totals.now.tree.now last) (file_at totals.now.tree.now k)) result }
{
    if sum_at(totals, k) == 0 {
        return false;
    }
    match last {
        Some(last) => goes_first(totals, last, k),
        None => true,
    }
}

// The next file among those seen so far, `best`, or k.
fn better(totals: &Totals<'_>, last: Option<usize>, best: Option<usize>, k: usize) -> Option<usize>
    requires { IsFile totals.now.tree.now last × IsFile totals.now.tree.now best × (k < file_count totals.now.tree.now) }
    ensures file { IsFile totals.now.tree.now result }
    ensures chosen { (seen : List (Placed Weight))
        → FileChosen totals.now.tree.now (number_in totals.now.tree.now last) seen (number_in totals.now.tree.now best)
        → FileChosen totals.now.tree.now (number_in totals.now.tree.now last) (seen ++ file_at totals.now.tree.now k ∷ [])
        (number_in totals.now.tree.now result) }
{
    if !is_next(totals, last, k) {
        return best;
    }
    match best {
        Some(other) => {
            if goes_first(totals, k, other) {
                Some(k)
            } else {
                best
            }
        }
        None => Some(k),
    }
}

// The next file behind the last one listed.
fn next_file(totals: &Totals<'_>, last: Option<usize>) -> Option<usize>
    requires { IsFile totals.now.tree.now last }
    ensures file { IsFile totals.now.tree.now result }
    ensures chosen { FileChosen totals.now.tree.now (number_in totals.now.tree.now last) (placed_from 0 (listed totals.now.tree.now))
        (number_in totals.now.tree.now result) }
{
    let mut best = None;
    for k in 0..layout::file_count(totals.tree) {
        best = better(totals, last, best, k);
    }
    best
}

// The bytes of a file's row.
fn file_row_length(totals: &Totals<'_>, k: usize) -> usize
    requires { k < file_count totals.now.tree.now }
    ensures { (result ≡ length (file_row (weight_at totals.now.tree.now k))) × (result ≤ 4294967400) }
{
    report_rows::weight_row_length(sum_at(totals, k), path_at(totals, k))
}

// The row of a file.
fn write_file_row(w: &mut Writer<'_>, totals: &Totals<'_>, k: usize)
    requires { (k < file_count totals.now.tree.now) × Room (file_row (weight_at totals.now.tree.now k)) w.old }
    ensures { Writes (file_row (weight_at totals.now.tree.now k)) w.old w.new }
{
    report_rows::write_weight_row(w, sum_at(totals, k), path_at(totals, k));
}

// The heaviest files: the first `count` of the numbers are theirs.
// Kept: an array of ten numbers and their count, where an ArrayVec would hold the same and could not be copied.
#[derive(Clone, Copy)]
pub struct Heaviest<'a> {
    pub totals: &'a Totals<'a>,
    pub count: usize,
    pub files: [usize; MOST],
    pub ghost few: { count ≤ 10 },
    pub ghost heavy: { Heavy totals.now.tree.now (take count files) } by { heavy_prop totals.now.tree.now (take count files) },
}

impl<'a> Heaviest<'a> {
    ghost use Rattle.report_files.specs.Tops.{weights_in};

    // At most ten passes over the files.
    pub fn new(totals: &'a Totals<'a>) -> Heaviest<'a>
        ensures { (result.totals.now.tree.now ≡ totals.now.tree.now) × (weights_in result ≡ heaviest_files totals.now.tree.now) }
    {
        let mut files = [0usize; MOST];
        let mut last = None;
        for done in 0..MOST {
            last = next_file(totals, last);
            let Some(file) = last else {
                return Heaviest {
                    totals,
                    count: done,
                    files,
                };
            };
            files[done] = file;
        }
        Heaviest {
            totals,
            count: MOST,
            files,
        }
    }

    // Their numbers, the heaviest one first.
    pub fn files(&self) -> &[usize]
        ensures { Heavy self.now.totals.now.tree.now result.now × (weights_in self.now ≡ map (weight_at self.now.totals.now.tree.now) result.now) }
    {
        &self.files[..self.count]
    }

    // The bytes of their rows.
    pub fn rows_length(&self) -> usize
        ensures { (result ≡ length (weight_rows (weights_in self.now))) × (result ≤ 42949674000) }
    {
        let mut bytes: usize = 0;
        for k in self.files() {
            bytes += file_row_length(self.totals, *k);
        }
        bytes
    }

    // Their rows.
    pub fn write_rows(&self, w: &mut Writer<'_>)
        requires { Room (weight_rows (weights_in self.now)) w.old }
        ensures { Writes (weight_rows (weights_in self.now)) w.old w.new }
    {
        for k in self.files() {
            write_file_row(w, self.totals, *k);
        }
    }
}
