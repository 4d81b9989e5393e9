//! Sums, differences and products of two numbers.
ghost use Rattle.std.specs.Int.{w64, w128};
ghost use Rattle.std.specs.Prelude.{FitsSigned, IfSome, Some, nat_abs, ℤ, ◌*ℤ◌, ◌+ℤ◌, ◌<◌, ◌^◌, ◌≡◌, ◌≤◌};
ghost use Rattle.cq_prims_arithmetic.specs.Operation.{minus};

/// What is done with the two numbers of a place.
pub(crate) trait Operation: Copy {
    ghost apply: { ℤ → ℤ → ℤ };

    /// In 128 bits.
    fn in_128_bits(m: i128, n: i128) -> i128
        requires { FitsSigned w128 (apply m n) }
        ensures { result ≡ apply m n };

    /// In 64 bits.
    fn in_64_bits(m: i64, n: i64) -> i64
        requires { FitsSigned w64 (apply m n) }
        ensures { result ≡ apply m n };

    /// How far from zero the result of numbers of these sizes is at most, if that fits 64 bits.
    fn size(a: u64, b: u64) -> Option<u64>
        ensures within { IfSome result (λ size. (m n : ℤ) → nat_abs m ≤ a → nat_abs n ≤ b → nat_abs (apply m n) ≤ size) }
        ensures fits { IfSome result (λ size. size < 2 ^ 63) };
}

#[derive(Clone, Copy)]
pub(crate) struct Plus;

impl Operation for Plus {
    ghost apply = { λ m n. m +ℤ n };

    fn in_128_bits(m: i128, n: i128) -> i128 {
        m + n
    }

    fn in_64_bits(m: i64, n: i64) -> i64 {
        m + n
    }

    fn size(a: u64, b: u64) -> Option<u64> {
        in_63_bits(a.checked_add(b))
    }
}

#[derive(Clone, Copy)]
pub(crate) struct Minus;

impl Operation for Minus {
    ghost apply = { minus };

    fn in_128_bits(m: i128, n: i128) -> i128 {
        m - n
    }

    fn in_64_bits(m: i64, n: i64) -> i64 {
        m - n
    }

    fn size(a: u64, b: u64) -> Option<u64> {
        Plus::size(a, b)
    }
}

#[derive(Clone, Copy)]
pub(crate) struct Times;

impl Operation for Times {
    ghost apply = { λ m n. m *ℤ n };

    fn in_128_bits(m: i128, n: i128) -> i128 {
        m * n
    }

    fn in_64_bits(m: i64, n: i64) -> i64 {
        m * n
    }

    fn size(a: u64, b: u64) -> Option<u64> {
        in_63_bits(a.checked_mul(b))
    }
}

/// The size, if there is one and a number of 64 bits can have it on both sides of zero.
fn in_63_bits(size: Option<u64>) -> Option<u64>
    ensures same { IfSome result (λ n. size ≡ Some n) }
    ensures small { IfSome result (λ n. n < 2 ^ 63) }
{
    match size {
        Some(size) if size < 1 << 63 => Some(size),
        _ => None,
    }
}
