// Two things that are done side by side, as one result.
ghost use Rattle.std.specs.Prelude.{◌≡◌, IfOk, Ok};

/// Two values, if there was memory for both.
pub(crate) fn both<A: Drop, B: Drop, E: Drop>(
    one: Result<A, E>,
    other: Result<B, E>,
) -> Result<(A, B), E>
    ensures { IfOk result (λ all. (one ≡ Ok all.0) × (other ≡ Ok all.1)) }
{
    let one = one?;
    let other = other?;
    Ok((one, other))
}

/// A value, and what was done beside it. If that failed, the value is let go.
pub(crate) fn beside<A: Drop, B: Drop, E: Drop>(value: A, other: Result<B, E>) -> Result<(A, B), E>
    ensures value { IfOk result (λ all. all.0 ≡ value) }
    ensures other { IfOk result (λ all. other ≡ Ok all.1) }
{
    match other {
        Ok(other) => Ok((value, other)),
        Err(stop) => Err(stop),
    }
}
