// The doubles and float helpers that the geometry shares: what upstream takes from f64 and from `Customf64`.
#![tactic(auto)]

ghost use Rattle.std.specs.Prelude.{◌≡◌};
ghost use Rattle.std.specs.Float.{binary64};
ghost use Rattle.std.specs.Float.Ieee.{of_bits, to_bits};
ghost use Rattle.float.specs.Doubles.{abs_of, is_finite, inclusive, half_open, max_of};

pub const PI: f64 = 3.141592653589793;

pub const HALF_PI: f64 = 0.5 * PI;

pub const TWO_PI: f64 = 2.0 * PI;

// With no branch on the sign, as `f64::abs` has it, which is as good as drawn where the magnitude of a difference is asked for.
pub fn abs(x: f64) -> f64
    ensures { result ≡ abs_of x }
{
    if x == 0.0 { 0.0 } else { max(x, -x) }
}

pub fn is_finite(x: f64) -> bool
    ensures { result ≡ is_finite x }
{
    x.is_finite()
}

// The larger one, and a where either is a NaN or both compare equal: `f64::max` does not say which of two zeros it answers, and b where a is a NaN.
pub fn max(a: f64, b: f64) -> f64
    ensures { result ≡ max_of a b }
{
    if a < b { b } else { a }
}

// `(low..=high).contains(&x)` with two comparisons and no branch: `contains` goes by `partial_cmp`, which takes up to four and three branches.
pub fn within(low: f64, x: f64, high: f64) -> bool
    ensures { result ≡ inclusive low x high }
{
    (low <= x) & (x <= high)
}

// `(low..high).contains(&x)`, for the same reason.
pub fn within_half_open(low: f64, x: f64, high: f64) -> bool
    ensures { result ≡ half_open low x high }
{
    (low <= x) & (x < high)
}

// The double of a bit pattern: every NaN pattern is a NaN.
pub fn from_bits(bits: u64) -> f64
    ensures { result ≡ of_bits binary64 bits }
{
    std::num::f64_from_bits_with_nan(bits)
}

// The bit pattern of a double: a NaN is 7FF8000000000000.
pub fn to_bits(x: f64) -> u64
    ensures { result ≡ to_bits binary64 x }
{
    std::num::f64_to_bits_with_nan(x)
}
