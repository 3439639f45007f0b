// Sums and products within the limit.
ghost use Rattle.std.specs.Prelude.{◌≡◌, ◌+ℤ◌, ◌*ℤ◌};
ghost use Rattle.std.specs.Ordering.{int_eq};
ghost use Rattle.lhg_num.specs.Limits.{formed};

// The product, where its size is at most 2^127 - 1.
pub(crate) fn times(a: i128, b: i128) -> Option<i128>
    ensures { result ≡ formed (a *ℤ b) }
{
    match a.checked_mul(b) {
        Some(product) if product != i128::MIN => Some(product),
        _ => None,
    }
}

// The sum, where its size is at most 2^127 - 1.
pub(crate) fn plus(a: i128, b: i128) -> Option<i128>
    ensures { result ≡ formed (a +ℤ b) }
{
    match a.checked_add(b) {
        Some(sum) if sum != i128::MIN => Some(sum),
        _ => None,
    }
}

// Whether the two numbers are the same.
pub(crate) fn same(a: i128, b: i128) -> bool
    ensures { result ≡ int_eq a b }
{
    a == b
}
