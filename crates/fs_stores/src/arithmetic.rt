//! Products within 128 bits. Of numbers within 64 bits they need no test.

ghost use Rattle.std.specs.Prelude.{◌≡◌, FitsSigned, IfSome, ◌*ℤ◌};
ghost use Rattle.std.specs.Int.{w128};
ghost use Rattle.std.specs.Option.{SomeIff};

// A number within 64 bits, and `None` where it may lie outside.
fn short(n: i128) -> Option<i64>
    ensures { IfSome result (λ s. s ≡ n) }
{
    if i128::from(i64::MIN) <= n && n <= i128::from(i64::MAX) {
        Some(n as i64)
    } else {
        None
    }
}

// Two numbers within 64 bits, and `None` where one may lie outside.
fn both_short(left: i128, right: i128) -> Option<(i64, i64)>
    ensures { IfSome result (λ p. (p.0 ≡ left) × (p.1 ≡ right)) }
{
    let a = short(left)?;
    let b = short(right)?;
    Some((a, b))
}

/// The product, and `None` exactly when it lies outside 128 bits.
pub fn product(left: i128, right: i128) -> Option<i128>
    ensures { SomeIff result (FitsSigned w128 (left *ℤ right)) (left *ℤ right) }
{
    match both_short(left, right) {
        Some((a, b)) => i128::from(a).checked_mul(i128::from(b)),
        None => left.checked_mul(right),
    }
}
