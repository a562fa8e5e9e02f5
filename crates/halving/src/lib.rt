// A place that is found by halves: of some numbers, where a test that holds of the first ones and of no later one changes.
#![tactic(auto)]

ghost use Rattle.std.specs.Prelude.{◌≡◌, ℕ, ◌+◌, ◌≤◌, ◌<◌, true, false};

// A number up to n such that the test holds of the number before it and not of itself, where these are below n.
pub fn boundary<F: Fn(usize) -> bool>(n: usize, test: F) -> usize
    requires { (k : ℕ) → k < n → F.pre test k }
    ensures inside { result ≤ n }
    ensures before { (k : ℕ) → k + 1 ≡ result → F.post test k true }
    ensures here { result < n → F.post test result false }
{
    let mut from = 0;
    let mut to = n;
    // Kept: a turn leaves one half or the other, as the test says, so no range tells the turns.
    while from < to {
        let middle = from + (to - from) / 2;
        if test(middle) {
            from = middle + 1;
        } else {
            to = middle;
        }
    }
    from
}
