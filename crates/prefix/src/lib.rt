// How many bytes two texts have in common from their starts on.
#![tactic(auto)]

ghost use Rattle.std.specs.Prelude.{◌≡◌, true, ◌+◌, ◌≤◌, min, length, drop};
ghost use Rattle.prefix.specs.Common.{common};

// Whether the `n` bytes at a place are the same in both texts: where `n` is eight or four, the compiler compares them at once.
// Kept: `==` of the two parts was tried. It is a call for each eight bytes, and a baseline of 200,000 stale lines misses the bar of speed.
fn alike(s: &[u8], t: &[u8], at: usize, n: usize) -> bool
    requires { (at + n ≤ length s.now) × (at + n ≤ length t.now) }
    ensures { result ≡ true → common (drop at s.now) (drop at t.now) ≡ n + common (drop (at + n) s.now) (drop (at + n) t.now) }
{
    let mut all = true;
    for i in 0..n {
        if s[at + i] != t[at + i] {
            all = false;
        }
    }
    all
}

// Past the eights that are the same in both texts, of which the shorter has `most` bytes.
fn past_eights(s: &[u8], t: &[u8], most: usize) -> usize
    requires { most ≡ min (length s.now) (length t.now) }
    ensures { (result ≤ most) × (result + common (drop result s.now) (drop result t.now) ≡ common s.now t.now) }
{
    for k in 0..most / 8 {
        if !alike(s, t, 8 * k, 8) {
            return 8 * k;
        }
    }
    8 * (most / 8)
}

// Past the eights and a four that are the same in both texts.
fn past_alike(s: &[u8], t: &[u8], most: usize) -> usize
    requires { most ≡ min (length s.now) (length t.now) }
    ensures { (result ≤ most) × (result + common (drop result s.now) (drop result t.now) ≡ common s.now t.now) }
{
    let at = past_eights(s, t, most);
    if 4 <= most - at && alike(s, t, at, 4) {
        at + 4
    } else {
        at
    }
}

// How many bytes two texts have in common from their starts on.
pub fn common(s: &[u8], t: &[u8]) -> usize
    ensures { result ≡ common s.now t.now }
{
    let most = s.len().min(t.len());
    for i in past_alike(s, t, most)..most {
        if s[i] != t[i] {
            return i;
        }
    }
    most
}
