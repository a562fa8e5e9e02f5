// Whether a function of a scanned tree has a key. Functions stand in the order of their paths, so those that may have it are found by halves.
#![tactic(auto)]

ghost use Rattle.std.specs.Prelude.{◌≡◌, true, false, List, map, ℕ, ◌≤◌, length};
ghost use Rattle.text_rules.specs.Bytes.{among, same};
ghost use Rattle.gate_rules.specs.Functions.{key};
ghost use Rattle.gate_rules.specs.Gate.{gate};
ghost use Rattle.gate_rules.specs.Scan.{functions_of};
ghost use Rattle.baseline.specs.Reads.{key_bytes};
ghost use Rattle.functions.specs.Shown.{shown};
ghost use Rattle.live.specs.Live.{NoneHas, Only, path_of};

use baseline::FunctionKey;
use functions::{Function, Functions};
use halving::boundary;

// The function's key.
pub fn function_key(f: Function<'_>) -> FunctionKey<'_>
    ensures { key_bytes result ≡ key (shown f.entry) }
{
    FunctionKey {
        path: f.path,
        name: f.name,
    }
}

// Whether the function has the key.
pub fn has_key(f: Function, bytes: &[u8]) -> bool
    ensures { result ≡ same bytes.now (key (shown f.entry)) }
{
    function_key(f).is(bytes)
}

// Functions by their numbers: from one up to another.
#[derive(Clone, Copy)]
pub struct Numbers {
    pub from: usize,
    pub to: usize,
}

// Whether one of the functions with these numbers has the key.
pub fn any_has(fs: Functions, numbers: Numbers, bytes: &[u8]) -> bool
    requires { numbers.to ≤ fs.count }
    ensures live { result ≡ true → among bytes.now (map key (functions_of gate fs.entry.tree.now)) ≡ true }
    ensures dead { result ≡ false → NoneHas bytes.now (functions_of gate fs.entry.tree.now) numbers.from numbers.to }
{
    for k in numbers.from..numbers.to {
        if has_key(fs.get(k), bytes) {
            return true;
        }
    }
    false
}

// The functions that may have the key, or another with its path: those with the path that stands before its first tab.
pub fn range(fs: Functions, bytes: &[u8]) -> Numbers
    ensures inside { result.to ≤ fs.entry.count }
    ensures others { (k : List ℕ) → path_of k ≡ path_of bytes.now → Only k (functions_of gate fs.entry.tree.now) result.from result.to }
{
    let path = &bytes[..baseline::field_end(bytes, 0)];
    let from = boundary(fs.count, |k| paths::path_before(fs.get(k).path, path));
    let to = boundary(fs.count, |k| !paths::path_before(path, fs.get(k).path));
    Numbers { from, to }
}

// Whether a function of the tree has the key.
pub fn is_live(fs: Functions, bytes: &[u8]) -> bool
    ensures { result ≡ among bytes.now (map key (functions_of gate fs.entry.tree.now)) }
{
    any_has(fs, range(fs, bytes), bytes)
}
