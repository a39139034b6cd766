//! The entries of an array as a list.

ghost use Rattle.std.specs.Prelude.{◌≡◌, ◌++◌, ◌∷◌, [], not, pos, IfOk};
ghost use Rattle.std.specs.Ordering.{int_eq};
ghost use Rattle.std.specs.Result.{OnOk};
ghost use Rattle.fs_stores.specs.Values.{entry_number};
ghost use Rattle.fs_stores.specs.EntryLists.{IsListing};

use crate::memory::NoMemory;
use crate::values::Entries;
use std::alloc::Global;

impl Entries {
    /// The entries that are not 0, each with its index, in increasing order of index. The one refusal is out of memory.
    pub fn list(&self, alloc: Global) -> Result<Vec<(i128, i128)>, NoMemory>
        ensures listing { IfOk result (λ es. IsListing (entry_number self.now) es.items) }
    {
        let mut list = Vec::new(alloc);
        for (index, number) in self.map.iter() {
            if is_listed(number) {
                push_entry(&mut list, index, number)?;
            }
        }
        Ok(list)
    }
}

// Whether a number is listed: it is where it is not 0.
fn is_listed(number: &i128) -> bool
    ensures { result ≡ not (int_eq number.now (pos 0)) }
{
    *number != 0
}

fn push_entry(list: &mut Vec<(i128, i128)>, index: &i128, number: &i128) -> Result<(), NoMemory>
    ensures { OnOk result (list.new.items ≡ list.old.items ++ (index.now, number.now) ∷ []) }
{
    list.push((*index, *number))?;
    Ok(())
}
