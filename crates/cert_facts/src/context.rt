//! What a certificate is read against.

use cert_terms::names::Places;
use cert_terms::table::NameTable;
use fs_ast::machine::Machine;
use fs_pair::positions::Pairing;

/// Two machines with their positions, and the tables of their names.
#[derive(Clone, Copy)]
pub struct Context<'t, 'a> {
    pub a: &'a Machine,
    pub b: &'a Machine,
    pub pairing: &'a Pairing,
    pub left_states: &'t NameTable<'a>,
    pub right_states: &'t NameTable<'a>,
    pub places: &'t Places<'a>,
}
