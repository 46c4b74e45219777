// A value that goes on only where what was done beside it succeeded.
ghost use Rattle.std.specs.Prelude.{◌≡◌, IfErr, IfOk, Err, Ok};

/// The value, if what was done beside it succeeded. Otherwise the value is let go.
pub fn kept<T: Drop, E: Drop>(value: T, done: Result<(), E>) -> Result<T, E>
    ensures value { IfOk result (λ kept. kept ≡ value) }
    ensures ok { IfOk result (λ _. done ≡ Ok tt) }
    ensures err { IfErr result (λ stop. done ≡ Err stop) }
{
    match done {
        Ok(()) => Ok(value),
        Err(stop) => Err(stop),
    }
}
