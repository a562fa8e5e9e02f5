// The paths of a tree file: which bytes they may have, and their order.
#![tactic(auto)]

ghost use Rattle.std.specs.Prelude.{◌≡◌, ◌&&◌};
ghost use Rattle.gate_rules.specs.Tree.{is_path, path_before, rank};

// The order of a byte of a path: `/` counts below every other byte.
#[tactic(auto, unfolding(gate_rules::specs::Tree::rank))]
fn order(b: u8) -> u32
    ensures { result ≡ rank b }
{
    if b == b'/' { 0 } else { u32::from(b) + 1 }
}

// The first path stands before the second.
pub fn path_before(p: &[u8], q: &[u8]) -> bool
    ensures { result ≡ path_before p.now q.now }
{
    let ranks = p.iter().map(|b| order(*b));
    ranks.cmp(q.iter().map(|b| order(*b))).is_lt()
}

// A path has no tab and no LF, does not start with #, and is UTF-8.
fn is_path(path: &[u8]) -> bool
    ensures { result ≡ is_path path.now }
{
    !path.contains(&b'\t')
        && !path.contains(&b'\n')
        && !path.starts_with(b"#")
        && utf8::is_utf8(path)
}

// A path is good and stands behind the last one.
pub fn next_path(last: &[u8], path: &[u8]) -> bool
    ensures { result ≡ (is_path path.now && path_before last.now path.now) }
{
    is_path(path) && path_before(last, path)
}
