//! Greatest common divisors, and exact quotients by them.
ghost use Rattle.std.specs.Prelude.{◌≡◌, ◌<◌, ◌≤◌, ◌%◌, ◌^◌, ℕ, [], ◌∷◌};
ghost use Rattle.rp_algebra.specs.Integer.{gcd, gcd_of, reduced_by};

/// The greatest number of 64 bits.
const SHORT: u128 = u64::MAX as u128;

/// Returns the greatest common divisor of `a` and `b`, by the binary method (Stein, 1967). It halves and subtracts
/// where Euclid's algorithm divides.
pub fn greatest_common_divisor(a: u128, b: u128) -> u128
    ensures { result ≡ gcd a b }
{
    if a % 2 == 1 {
        return odd_divisor(a, b);
    }
    if b % 2 == 1 {
        return odd_divisor(b, a);
    }
    if b == 0 {
        return a;
    }
    2 * greatest_common_divisor(a / 2, b / 2)
}

/// Returns the greatest common divisor of `odd`, an odd number, and `other`. If `odd` is 1, as the divisor of several
/// numbers soon is, no step is needed. If `odd` fits in 64 bits, one division makes `other` fit too.
fn odd_divisor(odd: u128, other: u128) -> u128
    requires { odd % 2 ≡ 1 }
    ensures { result ≡ gcd odd other }
{
    if odd == 1 {
        return 1;
    }
    if odd <= SHORT {
        return short_divisor(odd as u64, (other % odd) as u64) as u128;
    }
    long_divisor(odd, other)
}

/// Returns the greatest common divisor of `odd`, an odd number, and `other`. The steps use 128 bits until both numbers
/// fit in 64.
fn long_divisor(odd: u128, other: u128) -> u128
    requires { odd % 2 ≡ 1 }
    ensures { result ≡ gcd odd other }
{
    let mut high = odd;
    let mut low = other;
    while high > SHORT || low > SHORT {
        if low == 0 {
            return high;
        }
        let part = low >> low.trailing_zeros();
        if part < high {
            low = high - part;
            high = part;
        } else {
            low = part - high;
        }
    }
    short_divisor(high as u64, low as u64) as u128
}

/// Returns the greatest common divisor of `odd`, an odd number, and `other`, in 64 bits.
fn short_divisor(odd: u64, other: u64) -> u64
    requires { odd % 2 ≡ 1 }
    ensures { result ≡ gcd odd other }
{
    let mut high = odd;
    let mut low = other;
    while low != 0 && high != 1 {
        let part = low >> low.trailing_zeros();
        if part < high {
            low = high - part;
            high = part;
        } else {
            low = part - high;
        }
    }
    high
}

/// Returns the greatest common divisor of `a`, `b`, `c` and `d`; 0 iff all are 0.
pub fn common_divisor(a: i128, b: i128, c: i128, d: i128) -> u128
    ensures { result ≡ gcd_of (a ∷ b ∷ c ∷ d ∷ []) }
{
    let last = greatest_common_divisor(d.unsigned_abs(), c.unsigned_abs());
    let middle = greatest_common_divisor(last, b.unsigned_abs());
    greatest_common_divisor(middle, a.unsigned_abs())
}

/// Returns the quotient of `v` by `divisor`, rounded towards 0. `divisor` is from 1 to 2^127 - 1.
#[tactic(none)]
pub fn quotient(v: i128, divisor: u128) -> i128
    requires positive { 0 < divisor }
    requires small { divisor < 2 ^ 127 }
    ensures { result ≡ reduced_by divisor v }
{
    if divisor == 1 {
        return v;
    }
    let twos = divisor.trailing_zeros();
    if divisor >> twos == 1 {
        return halved(v, twos);
    }
    v / divisor as i128
}

/// Returns `v` halved `times` times, from 1 to 126, and rounded towards 0. A power of two is the most frequent divisor,
/// and a shift takes less time than a division.
fn halved(v: i128, times: u32) -> i128
    requires some { 0 < times }
    requires few { times < 127 }
    ensures { result ≡ reduced_by (2 ^ times) v }
{
    let size = v.unsigned_abs() >> times;
    if v < 0 { -(size as i128) } else { size as i128 }
}

/// Returns the quotient of the coefficient `v` by `divisor`, rounded towards 0. `divisor` is from 1 to 2^63 - 1.
#[tactic(none)]
pub fn short_quotient(v: i64, divisor: u128) -> i64
    requires positive { 0 < divisor }
    requires small { divisor < 2 ^ 63 }
    ensures { result ≡ reduced_by divisor v }
{
    if divisor == 1 {
        return v;
    }
    v / divisor as i64
}
