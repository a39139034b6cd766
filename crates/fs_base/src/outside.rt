//! What the program reaches outside itself, by trait.
ghost use Rattle.std.specs.Prelude.{◌≡◌, ◌<◌, ◌≤◌, [], ◌∷◌, length, take, IfOk, OnOk};
ghost use Rattle.std.specs.Result.{IfErr, OnErr};

use std::alloc::Global;

/// There is no memory.
#[derive(Clone, Copy, PartialEq, Eq)]
pub struct NoMemory;

/// Why a file was not loaded.
#[derive(Clone, Copy)]
pub enum LoadError {
    /// The file could not be read, or there is none of that name.
    Failed,
    /// The file has more bytes than the limit.
    TooLong,
    /// There is no memory.
    NoMemory,
}

/// Why a file was not stored.
#[derive(Clone, Copy, PartialEq, Eq)]
pub enum StoreError {
    /// The file could not be written.
    Failed,
    /// There is no memory.
    NoMemory,
}

/// The sink took nothing of a piece.
#[derive(Clone, Copy, PartialEq, Eq)]
pub struct SinkFailed;

/// Files by name.
///
/// What is told of them: `holds`, what stands under a name, where it can be told; `faults` counts the failures of `load`
/// under a name and `store_faults` those of `store`; no count ever falls. `loaded` is the names that `load` was called with, in
/// order, where that can be told; once it is untold, it stays so.
pub trait Files {
    ghost use Rattle.fs_base.specs.Outside.{FilesTold, Rose, NoneFell, SameCounts, SameHeld, OthersHeld, AreHeld, MoreAreHeld};
    ghost use Rattle.fs_base.specs.Outside.{WhereFailed, WhereTooLong, WhereNoMemory, held_after, WhereNotStored, WhereNoRoom};
    ghost use Rattle.fs_base.specs.Outside.{AreLoaded};

    ghost told: { Self → FilesTold };

    /// Reads the bytes under a name, at most `limit` of them. It changes no file.
    ///
    /// `Failed` where the file cannot be read, and the count of faults of this name rose; `TooLong` where it has more
    /// than `limit` bytes; `NoMemory` where there is no memory, and then no count changed. Whatever it answers, the name is
    /// one of those that were loaded.
    fn load(&mut self, alloc: Global, name: &str, limit: u64) -> Result<Vec<u8>, LoadError>
        ensures within { IfOk result (λ bytes. length bytes.items ≤ limit) }
        ensures held { IfOk result (λ bytes. AreHeld ((told self.old).holds name.now) bytes.items) }
        ensures too_long { IfErr result (WhereTooLong (MoreAreHeld ((told self.old).holds name.now) limit)) }
        ensures failed { IfErr result (WhereFailed (Rose ((told self.old).faults name.now) ((told self.new).faults name.now))) }
        ensures no_memory { IfErr result (WhereNoMemory (SameCounts (told self.old).faults (told self.new).faults)) }
        ensures no_memory_store { IfErr result
            (WhereNoMemory (SameCounts (told self.old).store_faults (told self.new).store_faults)) }
        ensures counts { NoneFell (told self.old).faults (told self.new).faults }
        ensures store_counts { NoneFell (told self.old).store_faults (told self.new).store_faults }
        ensures unchanged { SameHeld (told self.old).holds (told self.new).holds }
        ensures loaded { AreLoaded (name.now ∷ []) (told self.old).loaded (told self.new).loaded };

    /// Makes a name hold exactly these bytes. Other names stay, and nothing is loaded.
    ///
    /// `Failed` where the file cannot be written: the count of store faults of this name rose, and the name may hold
    /// any bytes; `NoMemory` where there is no memory, and then nothing changed.
    fn store(&mut self, alloc: Global, name: &str, bytes: &[u8]) -> Result<(), StoreError>
        ensures stored { OnOk result ((told self.new).holds name.now ≡ held_after ((told self.old).holds name.now) bytes.now) }
        ensures others { OthersHeld name.now (told self.old).holds (told self.new).holds }
        ensures failed { IfErr result
            (WhereNotStored (Rose ((told self.old).store_faults name.now) ((told self.new).store_faults name.now))) }
        ensures no_memory { IfErr result (WhereNoRoom (SameHeld (told self.old).holds (told self.new).holds)) }
        ensures no_memory_load { IfErr result (WhereNoRoom (SameCounts (told self.old).faults (told self.new).faults)) }
        ensures no_memory_store { IfErr result
            (WhereNoRoom (SameCounts (told self.old).store_faults (told self.new).store_faults)) }
        ensures counts { NoneFell (told self.old).faults (told self.new).faults }
        ensures store_counts { NoneFell (told self.old).store_faults (told self.new).store_faults }
        ensures loaded { (told self.new).loaded ≡ (told self.old).loaded };
}

/// A sink of bytes.
///
/// What is told of it: `got` is the bytes taken so far, and `spare` the number of bytes for which room was made, each
/// where it can be told, and no call changes whether it is told; `faults` counts its failures and never falls.
pub trait Sink {
    ghost use Rattle.fs_base.specs.Outside.{SinkTold, Rose, got_after, room_after, HasRoom};

    ghost told: { Self → SinkTold };

    /// The number of bytes for which room was made, and `None` where that is untold.
    fn room(&self) -> Option<u64>
        ensures { result ≡ (told self.now).spare };

    /// Takes some bytes from the front of a piece, and answers how many: at least one, if the piece is not empty.
    ///
    /// `SinkFailed` where it takes nothing of a piece that is not empty, and then the count of faults rose. A piece that is
    /// empty is answered `Ok(0)`. It takes no memory.
    fn put(&mut self, piece: &[u8]) -> Result<u64, SinkFailed>
        requires { HasRoom (told self.old).spare (length piece.now) }
        ensures within { IfOk result (λ taken. taken ≤ length piece.now) }
        ensures some { IfOk result (λ taken. 0 < length piece.now → 0 < taken) }
        ensures got { IfOk result (λ taken. (told self.new).got ≡ got_after (told self.old).got (take taken piece.now)) }
        ensures spare { IfOk result (λ taken. (told self.new).spare ≡ room_after (told self.old).spare taken) }
        ensures failed { OnErr result (Rose (told self.old).faults (told self.new).faults) }
        ensures empty { OnErr result (0 < length piece.now) }
        ensures got_nothing { OnErr result ((told self.new).got ≡ (told self.old).got) }
        ensures spare_stays { OnErr result ((told self.new).spare ≡ (told self.old).spare) }
        ensures counts { (told self.old).faults ≤ (told self.new).faults };
}
