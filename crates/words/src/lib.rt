// A number in four bytes, the lowest first: read and written, alone or several one behind the other.
#![tactic(auto)]

ghost use Rattle.std.specs.Prelude.{◌≡◌, ◌+◌, ◌*◌, ◌≤◌, ◌<◌, length};
ghost use Rattle.text_rules.specs.Bytes.{put_at};
ghost use Rattle.text_rules.specs.U32.{u32_at, u32_bytes, u32s_bytes};

// The number whose bytes begin at `at`.
#[tactic(auto, unfolding(text_rules::specs::U32::u32_at))]
pub fn get_u32(s: &[u8], at: usize) -> u32
    requires { at + 4 ≤ length s.now }
    ensures { (result ≡ u32_at s.now at) × (result < 4294967296) }
{
    u32::from_le_bytes([s[at], s[at + 1], s[at + 2], s[at + 3]])
}

// The bytes of `v` from `at` on, and no other byte changed.
#[tactic(auto, unfolding(text_rules::specs::U32::u32_bytes))]
pub fn put_u32(s: &mut [u8], at: usize, v: u32)
    requires { at + 4 ≤ length s.old }
    ensures { s.new ≡ put_at at (u32_bytes v) s.old }
{
    s[at..at + 4].copy_from_slice(&v.to_le_bytes());
}

// The bytes of the numbers, one behind the other, from `at` on, and no other byte changed.
pub fn put_u32s<const N: usize>(s: &mut [u8], at: usize, numbers: [u32; N])
    requires { at + 4 * N ≤ length s.old }
    ensures { s.new ≡ put_at at (u32s_bytes numbers.entry) s.old }
{
    for (k, number) in numbers.iter().enumerate() {
        put_u32(s, at + 4 * k, *number);
    }
}
