//! What stands out in the picture of a search.

ghost use Rattle.std.specs.Prelude.{◌≡◌, ◌∷◌, [], IfOk};
ghost use Rattle.show_search_views.specs.SearchPictures.{marks_of, look_at};

use nf_terms::stop::NoMemory;
use search_tables::outcome::Outcome;
use show_machine_pictures::graphs::Look;
use std::alloc::Global;

fn one(alloc: Global, node: u32) -> Result<Vec<u32>, NoMemory>
    ensures { IfOk result (λ marks. marks.items ≡ node ∷ []) }
{
    let mut marks = Vec::new(alloc);
    marks.push(node)?;
    Ok(marks)
}

/// The nodes at which a search stops: where outputs differ, those of a cycle, or the one of the move that stops it. The one
/// refusal is out of memory.
pub fn marks_of(alloc: Global, outcome: &Outcome) -> Result<Vec<u32>, NoMemory>
    ensures { IfOk result (λ marks. marks.items ≡ marks_of outcome.now) }
{
    match outcome {
        Outcome::Closed(_) => Ok(Vec::new(alloc)),
        Outcome::Stuck { node, .. } => one(alloc, *node),
        Outcome::Spin { cycle, .. } => Ok(cycle.as_slice().to_vec(alloc)?),
        Outcome::Wide { at, .. } => one(alloc, at.node),
        Outcome::Large { at, .. } => one(alloc, at.node),
        Outcome::Exhausted { at, .. } => one(alloc, at.node),
    }
}

/// How a node looks.
pub fn look_at(marks: &[u32], number: usize) -> Look
    ensures { result ≡ look_at marks.now number }
{
    for mark in marks {
        if *mark as usize == number {
            return Look::Marked;
        }
    }
    Look::Boxed
}
