// The mean of the report: one division in f64, then the double's bits taken apart, in whole numbers, to the nearest tenth; and its text.
#![tactic(auto)]

ghost use Rattle.std.specs.Prelude.{◌≡◌, ◌+◌, ◌<◌, ◌≤◌, ◌^◌, ◌*◌, max, length};
ghost use Rattle.std.specs.Float.Ieee.{of_bits};
ghost use Rattle.std.specs.Float.{binary64};
ghost use Rattle.std.specs.Float.Ieee.Nearest.{closest};
ghost use Rattle.gate_rules.specs.Mean.{mean_tenths, mean_text, tenths_of};
ghost use Rattle.listing.specs.Writes.{Room, Writes};
ghost use Rattle.mean.specs.Texts.{mean_length, tenths_text};

use listing::Writer;
use std::cmp::Ordering;

// 2 to the k.
fn pow2(k: u64) -> u64
    requires { k < 64 }
    ensures { result ≡ 2 ^ k }
{
    1 << k
}

// n over p to the nearest whole number, at a tie to the even one.
fn nearest_of(n: u64, p: u64) -> u64
    requires { (0 < p) × (p < 2 ^ 62) × (n < 2 ^ 62) }
    ensures { result ≡ closest n p }
{
    let q = n / p;
    let r = n % p * 2;
    match r.cmp(&p) {
        Ordering::Less => q,
        Ordering::Equal => q + q % 2,
        Ordering::Greater => q + 1,
    }
}

// The tenths nearest to a double, from its bits. The double is +0 or above, and below 2 to the 53.
pub fn tenths_of_bits(b: u64) -> u64
    requires { b < 1076 * 2 ^ 52 }
    ensures { result ≡ tenths_of (of_bits binary64 b) }
{
    let x = b / 4503599627370496;
    let t = b % 4503599627370496;
    if x < 1018 {
        return 0;
    }
    let p = pow2(1075 - x);
    nearest_of((4503599627370496 + t) * 10, p)
}

// The mean of total over count in tenths.
pub fn mean_tenths(total: u32, count: u32) -> u64
    requires { (total ≤ 16777216) × (0 < count) }
    ensures { result ≡ mean_tenths total count }
{
    let d = total as f64 / count as f64;
    tenths_of_bits(f64::to_bits(d))
}

// The mean in tenths that is printed. Where nothing was counted the division is by 1.
fn printed(total: u32, count: u32) -> u64
    requires { total ≤ 16777216 }
    ensures { result ≡ mean_tenths total (max 1 count) }
{
    mean_tenths(total, count.max(1))
}

// A number of tenths with a point before its last digit.
fn write_tenths(w: &mut Writer<'_>, tenths: u64)
    requires { Room (tenths_text tenths) w.old }
    ensures { Writes (tenths_text tenths) w.old w.new }
{
    w.number(tenths / 10);
    w.text(b".");
    w.number(tenths % 10);
}

// The bytes of a mean as it is printed.
pub fn mean_length(total: u32, count: u32) -> usize
    requires { total ≤ 16777216 }
    ensures { (result ≡ mean_length total count) × (result ≤ 22) }
{
    listing::digits(printed(total, count) / 10) + 2
}

// A mean with one digit behind the point.
#[tactic(auto, unfolding(gate_rules::specs::Mean::mean_text))]
pub fn write_mean(w: &mut Writer<'_>, total: u32, count: u32)
    requires { (total ≤ 16777216) × Room (mean_text total count) w.old }
    ensures { Writes (mean_text total count) w.old w.new }
{
    write_tenths(w, printed(total, count));
}
