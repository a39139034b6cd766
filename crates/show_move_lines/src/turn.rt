//! What a move does to the table of a search.

use fs_cut::cover::Point;
use sym_facts::entailment::Entail;
use sym_facts::fact::Fact;
use sym_paths::execution::Post;

/// What a move does.
#[derive(Drop)]
pub enum Turn {
    /// Nothing: there is no such node, or an operation is not narrow, or narrow and not small.
    Idle,
    /// It makes a node at two points, with this fact.
    Makes {
        left: Point,
        right: Point,
        fact: Fact,
    },
    /// A node, at these points, loses what was missing of this post, and has this fact then.
    Weakens {
        node: usize,
        left: Point,
        right: Point,
        post: Post,
        missing: Entail,
        fact: Fact,
    },
}
