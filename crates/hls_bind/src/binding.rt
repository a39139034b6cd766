//! Bindings of locals to registers.

ghost use Rattle.std.specs.Prelude.{◌≡◌, true, map};
ghost use Rattle.hls_bind.specs.Bindings.{is_rising};
ghost use Rattle.hls_bind.specs.BindingEntries.{binding_entry};

use fs_model::name::Name;
use fs_model::parts::VarId;
use std::marker::Model;

/// A local with the register that stands for it.
#[derive(Drop)]
pub struct BoundLocal {
    pub local: VarId,
    pub register: Name,
}

/// The registers of locals. Contracts see the list of the locals' numbers, rising, each with the name of its register.
#[derive(Drop)]
pub struct Binding {
    entries: Vec<BoundLocal>,
}

impl Model for Binding {
    ghost use Rattle.std.specs.Prelude.{◌≡◌, ℕ, List, true, map};
    ghost use Rattle.std.specs.Coded.{coded_list, coded×, coded_ℕ};
    ghost use Rattle.hls_bind.specs.Bindings.{is_rising};
    ghost use Rattle.hls_bind.specs.BindingEntries.{binding_entry};

    ghost Value = { List (ℕ × List ℕ) };

    ghost coded = { coded_list (coded× coded_ℕ (coded_list coded_ℕ)) };

    ghost view = { λ b. map binding_entry b.entries.items };

    ghost invariant = { λ b. is_rising (map binding_entry b.entries.items) ≡ true };
}

impl Binding {
    /// The binding of these locals, whose numbers rise. Takes no memory.
    pub fn of(entries: Vec<BoundLocal>) -> Binding
        requires { is_rising (map binding_entry entries.items) ≡ true }
        ensures { result ≡ map binding_entry entries.items }
    {
        Binding { entries }
    }

    /// The locals by rising numbers, each with its register. Takes no memory.
    pub fn entries(&self) -> &[BoundLocal]
        ensures entries { map binding_entry result.now ≡ self.now }
        ensures rising { is_rising self.now ≡ true }
    {
        self.entries.as_slice()
    }
}
