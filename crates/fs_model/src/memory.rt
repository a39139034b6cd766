//! Memory, which may be refused.

ghost use Rattle.std.specs.Prelude.{◌≡◌, ◌++◌, ◌∷◌, [], IfOk, OnOk};
ghost use Rattle.fs_model.specs.Adding.{AddsIfMade};

use crate::name::NoMemory;
use std::alloc::{AllocError, AllocFailed, Global};
use std::rc::Rc;

impl From<AllocError> for NoMemory {
    fn from(_refused: AllocError) -> NoMemory {
        NoMemory
    }
}

impl<T: Drop> From<AllocFailed<T>> for NoMemory {
    fn from(_refused: AllocFailed<T>) -> NoMemory {
        NoMemory
    }
}

/// The value in a box. The one refusal is out of memory.
pub fn put_in_box<T: Drop>(alloc: Global, value: T) -> Result<Box<T>, NoMemory>
    ensures { IfOk result (λ b. b.value ≡ value) }
{
    Ok(Box::new(alloc, value)?)
}

/// The value with one owner, of which there may be more. The one refusal is out of memory.
pub fn share<T: Drop>(alloc: Global, value: T) -> Result<Rc<T>, NoMemory>
    ensures { IfOk result (λ r. r.value ≡ value) }
{
    Ok(Rc::new(alloc, value)?)
}

/// Two values, each in a box of its own. The one refusal is out of memory.
pub fn both_boxed<T: Drop>(alloc: Global, a: T, b: T) -> Result<(Box<T>, Box<T>), NoMemory>
    ensures left { IfOk result (λ p. p.0.value ≡ a) }
    ensures right { IfOk result (λ p. p.1.value ≡ b) }
{
    Ok((put_in_box(alloc, a)?, put_in_box(alloc, b)?))
}

/// Adds a value behind others. The one refusal is out of memory.
pub fn push_value<T: Drop>(values: &mut Vec<T>, value: T) -> Result<(), NoMemory>
    ensures { OnOk result (values.new.items ≡ values.old.items ++ value ∷ []) }
{
    values.push(value)?;
    Ok(())
}

/// Adds a value behind others, where it was made. The one refusal is out of memory.
pub fn push_made<T: Drop>(values: &mut Vec<T>, made: Result<T, NoMemory>) -> Result<(), NoMemory>
    ensures { OnOk result (AddsIfMade made values.old.items values.new.items) }
{
    values.push(made?)?;
    Ok(())
}
