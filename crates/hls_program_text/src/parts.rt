//! Parts of a program one after another.

ghost use Rattle.std.specs.Prelude.{◌≡◌};
ghost use Rattle.std.specs.Result.{result_map_both};

use fs_grammar::fault::ReadError;

/// A part that was read, and what was read behind it.
pub fn join<T: Drop, U>(part: T, next: Result<U, ReadError>) -> Result<(T, U), ReadError>
    ensures { result ≡ result_map_both (λ u. (part, u)) (λ e. e) next }
{
    match next {
        Ok(next) => Ok((part, next)),
        Err(error) => Err(error),
    }
}
