//! The nodes of a table of two machines, with their modes and their places.

ghost use Rattle.std.specs.Prelude.{◌≡◌};
ghost use Rattle.search_tables.specs.TableInvariants.{IsWellFormed};
ghost use Rattle.search_tables.specs.View.{table_in};
ghost use Rattle.search_closing.specs.NodePlaces.{keys_in};
ghost use Rattle.search_closing.specs.ClosedModes.{AreModes};
ghost use Rattle.search_closing.specs.View.{covered_machines};

use crate::covered::Covered;
use cert_bisimulation::mode::Mode;
use indexmap::IndexSet;
use search_tables::nodes::SearchNode;

/// The nodes of a table of two machines, with their modes and the places of their points.
#[derive(Drop)]
pub(crate) struct NodeTable<'a> {
    pub(crate) machines: &'a Covered<'a>,
    pub(crate) nodes: &'a [SearchNode],
    pub(crate) modes: &'a [Mode],
    pub(crate) places: IndexSet<(u64, u64)>,
    ghost formed: { IsWellFormed (covered_machines machines.now) (table_in nodes.now) },
    ghost modes_are: { AreModes (covered_machines machines.now) (table_in nodes.now) modes.now },
    ghost places_are: { places.keys ≡ keys_in (table_in nodes.now) },
}
