//! Parts of a text one after another.

ghost use Rattle.std.specs.Prelude.{◌≡◌};
ghost use Rattle.std.specs.Result.{result_map_both};
ghost use Rattle.fs_text_parser.specs.ReadParts.{PushesRead};

use fs_grammar::fault::ReadError;
use fs_model::memory::push_value;

/// A part that was read, and what was read behind it.
pub fn join<T: Drop, U: Drop>(part: T, next: Result<U, ReadError>) -> Result<(T, U), ReadError>
    ensures { result ≡ result_map_both (λ u. (part, u)) (λ e. e) next }
{
    Ok((part, next?))
}

/// Puts a part that was read behind others, and gives what follows it. An `Err` is that of the part, or out of memory.
pub fn push_read<T: Drop, U: Drop>(
    parts: &mut Vec<T>,
    read: Result<(T, U), ReadError>,
) -> Result<U, ReadError>
    ensures { PushesRead parts.old.items parts.new.items read result }
{
    let (part, rest) = read?;
    push_value(parts, part)?;
    Ok(rest)
}
