// The tree file: the refusals 1 to 4, by its layout, its paths and its texts.
#![tactic(auto)]

ghost use Rattle.std.specs.Prelude.{◌≡◌, true, []};
ghost use Rattle.text_rules.specs.Bytes.{◌or_else◌};
ghost use Rattle.gate_rules.specs.Tree.{is_laid_out, paths_rise, sources, texts_good, tree_refusal};
ghost use Rattle.answers.specs.Numbers.{number_of, refusal_number};

use answers::Refusal;

// The bytes of a tree.
pub const MAX_TREE: usize = 16777216;

// The paths are good, and each stands behind the one before. At first that is the empty path, behind which every path stands.
pub fn paths_rise(tree: &[u8]) -> bool
    requires { is_laid_out tree.now ≡ true }
    ensures { result ≡ paths_rise [] (sources tree.now) }
{
    let n = layout::file_count(tree);
    let mut last: &[u8] = &[];
    for k in 0..n {
        let path = layout::path(tree, k);
        if !paths::next_path(last, path) {
            return false;
        }
        last = path;
    }
    true
}

// Every text is UTF-8.
pub fn texts_good(tree: &[u8]) -> bool
    requires { is_laid_out tree.now ≡ true }
    ensures { result ≡ texts_good (sources tree.now) }
{
    let n = layout::file_count(tree);
    for k in 0..n {
        if !utf8::is_utf8(layout::text(tree, k)) {
            return false;
        }
    }
    true
}

// Whether a tree is accepted: the first of the refusals 1 to 4 that applies.
#[tactic(auto, unfolding(gate_rules::specs::Tree::tree_refusal))]
pub fn accept(tree: &[u8]) -> Result<(), Refusal>
    ensures { refusal_number result ≡ tree_refusal tree.now }
{
    if tree.len() > MAX_TREE {
        return Err(Refusal::Length);
    }
    if !layout::laid_out(tree) {
        return Err(Refusal::Layout);
    }
    if !paths_rise(tree) {
        return Err(Refusal::Path);
    }
    if !texts_good(tree) {
        return Err(Refusal::Text);
    }
    Ok(())
}

// Why a call is refused that has a reason of its own behind the tree's: the first that applies.
pub fn refusal_or(tree: &[u8], own: Refusal) -> Refusal
    ensures { number_of result ≡ tree_refusal tree.now or_else number_of own }
{
    accept(tree).err().unwrap_or(own)
}
