//! Copies of the entries of vectors.

ghost use Rattle.std.specs.Prelude.{◌≡◌, [], IfOk};
ghost use Rattle.std.specs.Result.{OnOk};
ghost use Rattle.indexmap.specs.IndexMap.{insert_entry};
ghost use Rattle.nf_vectors.specs.SamePlaces.{same_place};

use crate::place::Place;
use crate::shared_form::SharedForm;
use indexmap::IndexMap;
use nf_terms::stop::NoMemory;
use std::alloc::Global;

// Inserts an entry with the same form.
fn insert_copy(
    copy: &mut IndexMap<Place, SharedForm>,
    place: &Place,
    form: &SharedForm,
) -> Result<(), NoMemory>
    ensures { OnOk result (copy.new.entries ≡ insert_entry same_place copy.old.entries place.now form.now) }
{
    copy.insert(*place, form.try_clone()?)?;
    Ok(())
}

// Fills a map without entries with those of another one, in the same order.
fn insert_copies(
    copy: &mut IndexMap<Place, SharedForm>,
    forms: &IndexMap<Place, SharedForm>,
) -> Result<(), NoMemory>
    requires { copy.old.entries ≡ [] }
    ensures { OnOk result (copy.new.entries ≡ forms.now.entries) }
{
    for (place, form) in forms.iter() {
        insert_copy(copy, place, form)?;
    }
    Ok(())
}

/// The same entries in the same order, with the same forms. The one refusal is out of memory.
pub fn copy_forms(
    alloc: Global,
    forms: &IndexMap<Place, SharedForm>,
) -> Result<IndexMap<Place, SharedForm>, NoMemory>
    ensures { IfOk result (λ copy. copy.entries ≡ forms.now.entries) }
{
    let mut copy = IndexMap::with_capacity(alloc, forms.len())?;
    insert_copies(&mut copy, forms)?;
    Ok(copy)
}
