// The bytes of a text by their places. The laws in proofs/ say what the library's searches answer in the words of the definitions.
#![tactic(auto)]

ghost use Rattle.std.specs.Prelude.{◌≡◌, ℕ, true, false, ◌∷◌, ◌≤◌, ◌<◌, length, get_or};

// The byte at a place, 0 past the end.
pub fn byte(s: &[u8], at: usize) -> u8
    ensures { result ≡ get_or s.now at 0 }
{
    s.get(at).copied().unwrap_or(0)
}

// The byte before a place, 0 at the start.
pub fn byte_before(s: &[u8], at: usize) -> u8
    ensures { result ≡ get_or (0 ∷ s.now) at 0 }
{
    match at.checked_sub(1) {
        Some(before) => byte(s, before),
        None => 0,
    }
}

// The place behind the bytes that pass a test, from a place on.
pub fn end_while<F: Fn(u8) -> bool>(s: &[u8], from: usize, test: F) -> usize
    requires inside { from ≤ length s.now }
    requires callable { F.IsAlwaysCallable test }
    ensures behind { from ≤ result }
    ensures inside { result ≤ length s.now }
    ensures passed { (k : ℕ) → from ≤ k → k < result → F.post test (get_or s.now k 0) true }
    ensures ends { result < length s.now → F.post test (get_or s.now result 0) false }
{
    for at in from..s.len() {
        if !test(s[at]) {
            return at;
        }
    }
    s.len()
}
