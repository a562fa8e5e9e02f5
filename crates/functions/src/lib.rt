// The functions of a scanned tree, read back from their records: path and name lie in the tree, and nothing is copied.
#![tactic(auto)]

ghost use Rattle.std.specs.Prelude.{◌≡◌, ℕ, ◌+◌, ◌≤◌, ◌<◌, true, length, get_or};
ghost use Rattle.text_rules.specs.Search.{part};
ghost use Rattle.gate_rules.specs.Functions.{gate_limits, over};
ghost use Rattle.gate_rules.specs.Gate.{gate};
ghost use Rattle.gate_rules.specs.Scan.{functions_of};
ghost use Rattle.gate_rules.specs.Tree.{file_count, is_laid_out};
ghost use Rattle.functions.specs.Shown.{Bounded, Lies, Stand, limits_of, no_fun, shown};

use records::Record;

// A function: its path and its name, and what is measured.
#[derive(Clone, Copy)]
pub struct Function<'a> {
    pub path: &'a [u8],
    pub name: &'a [u8],
    pub line: u32,
    pub lines: u32,
    pub cyclomatic: u32,
    pub nesting: u32,
    pub params: u32,
}

// What a function may have at most.
#[derive(Clone, Copy)]
pub struct Limits {
    pub cyclomatic: u32,
    pub lines: u32,
    pub nesting: u32,
    pub params: u32,
}

// The gate's own limits.
pub fn gate_limits() -> Limits
    ensures { limits_of result ≡ gate_limits }
{
    Limits {
        cyclomatic: 15,
        lines: 100,
        nesting: 5,
        params: 7,
    }
}

impl Function<'_> {
    // Over-limit: the function is over one of the limits.
    #[tactic(auto, unfolding(gate_rules::specs::Functions::over))]
    pub fn is_over(self, limits: Limits) -> bool
        ensures { result ≡ over (limits_of limits) (shown self.entry) }
    {
        limits.cyclomatic < self.cyclomatic
            || limits.lines < self.lines
            || limits.nesting < self.nesting
            || limits.params < self.params
    }
}

// Where the path and the name of a function stand in the tree.
#[derive(Clone, Copy)]
pub struct Places {
    pub path_at: usize,
    pub path_end: usize,
    pub name_at: usize,
    pub name_end: usize,
}

// The places that a record tells of.
fn places_of(tree: &[u8], r: Record) -> Places
    requires { (is_laid_out tree.now ≡ true) × (r.file < file_count tree.now) × (r.start + r.len ≤ length tree.now) }
    ensures { Lies tree.now result × Bounded tree.now r result }
{
    let path = layout::path_span(tree, r.file as usize);
    let start = r.start as usize;
    Places {
        path_at: path.start,
        path_end: path.end,
        name_at: start,
        name_end: start + r.len as usize,
    }
}

// The places of the function with a number, in scan order.
pub fn places_at(tree: &[u8], records: &[u8], k: usize) -> Places
    requires { Stand tree.now records.now × (k < length (functions_of gate tree.now)) }
    ensures lies { Lies tree.now result }
    ensures path { part result.path_at result.path_end tree.now ≡ (get_or (functions_of gate tree.now) k no_fun).path }
    ensures name { part result.name_at result.name_end tree.now ≡ (get_or (functions_of gate tree.now) k no_fun).name }
{
    places_of(tree, Record::get(records, k * records::RECORD_WIDTH))
}

// The function with a number, in scan order.
pub fn function_at<'a>(tree: &'a [u8], records: &[u8], k: usize) -> Function<'a>
    requires { Stand tree.now records.now × (k < length (functions_of gate tree.now)) }
    ensures { shown result ≡ get_or (functions_of gate tree.now) k no_fun }
{
    let r = Record::get(records, k * records::RECORD_WIDTH);
    let p = places_of(tree, r);
    Function {
        path: &tree[p.path_at..p.path_end],
        name: &tree[p.name_at..p.name_end],
        line: r.line,
        lines: r.lines,
        cyclomatic: r.cyclomatic,
        nesting: r.nesting,
        params: r.params,
    }
}

// The functions of a scanned tree: the tree, the bytes in which their records stand, and how many they are.
#[derive(Clone, Copy)]
pub struct Functions<'a> {
    pub tree: &'a [u8],
    pub records: &'a [u8],
    pub count: usize,
    pub ghost stand: { Stand tree.now records.now },
    pub ghost all: { count ≡ length (functions_of gate tree.now) },
}

impl<'a> Functions<'a> {
    // The function with a number, in scan order.
    pub fn get(self, k: usize) -> Function<'a>
        requires { k < self.count }
        ensures { shown result ≡ get_or (functions_of gate self.entry.tree.now) k no_fun }
    {
        function_at(self.tree, self.records, k)
    }

    // Whether two functions, by their numbers, stand in one file: then they have one path.
    pub fn in_one_file(self, j: usize, k: usize) -> bool
        requires { (j < self.count) × (k < self.count) }
        ensures { result ≡ true
            → (get_or (functions_of gate self.entry.tree.now) j no_fun).path ≡ (get_or (functions_of gate self.entry.tree.now) k no_fun).path }
    {
        let first = Record::get(self.records, j * records::RECORD_WIDTH);
        let second = Record::get(self.records, k * records::RECORD_WIDTH);
        first.file == second.file
    }
}
