//! What the program asks of the outside: files, random words, a place to print, and connections.
//!
//! Each is a trait that counts its faults. The count rises in the calls that answer `Failed` and in no
//! others, so a program that stops for a fault can't have made it up, and one that passes over a fault
//! shows it in the count. What an object holds is told by the forms in memory, which tests use, and by
//! no real one; clauses on content hold where it is told.
#![tactic(auto)]

ghost use Rattle.std.specs.Prelude.{◌≡◌, ◌≤◌, ℕ, List, Option, length, IfSome, IfOk, IsErr, IsErrOf, IsSomeAnd};
ghost use Rattle.spl_outside.specs.Causes.{Counts};
ghost use Rattle.spl_outside.specs.Content.{FileMap, ReadsFile, WritesFile, KeepsOthers, DrawsWord, Appends};

use std::alloc::Global;

mod connections;
mod fails;
mod file_log;
mod input;
mod memory_door;
mod memory_draw;
mod memory_files;
mod memory_sink;
mod queue;
mod rooms;
mod script_link;
mod sizes;
mod steady_connections;

pub use connections::{Door, Link};
pub use memory_door::MemoryDoor;
pub use memory_draw::{MemoryDraw, SteadyDraw};
pub use memory_files::{MemoryFiles, SteadyFiles};
pub use memory_sink::{MemorySink, SteadySink};
pub use script_link::ScriptLink;
pub use sizes::Sizes;
pub use steady_connections::{SteadyDoor, SteadyLink};

/// The object failed.
#[derive(Clone, Copy, Debug, PartialEq, Eq)]
pub struct Failed;

/// Why nothing, or not all, was written.
#[derive(Clone, Copy, Debug, PartialEq, Eq)]
pub enum Stop {
    /// The object failed.
    Failed,
    /// There was no memory for it.
    OutOfMemory,
}

/// Why a file was not read or written.
#[derive(Clone, Copy, Debug, PartialEq, Eq)]
pub enum FileStop {
    /// No file has the name.
    Absent,
    /// The file has more bytes than the limit.
    TooLong,
    /// The files failed.
    Failed,
    /// There was no memory for it.
    OutOfMemory,
}

/// Files by name.
pub trait Files {
    /// The bytes of each name, where they are told.
    ghost held: { Self → Option FileMap };

    /// How many calls have failed, up to 2^64 - 1.
    ghost faults: { Self → ℕ };

    /// The bytes of a name, at most `limit` of them.
    ///
    /// Of the calls that don't fail, those on a name that isn't held are `Absent`, and those on a
    /// name with more bytes are `TooLong`; want of memory may come in the place of either.
    fn read(&mut self, alloc: Global, name: &str, limit: u64) -> Result<Vec<u8>, FileStop>
        ensures content { IfSome (held self.old) (λ m. ReadsFile m name.now limit result) }
        ensures bound { IfOk result (λ v. length v.items ≤ limit) }
        ensures stays { held self.new ≡ held self.old }
        ensures cause { Counts (faults self.old) (faults self.new) (IsErrOf result FileStop.Failed) };

    /// Makes a name hold the bytes.
    ///
    /// It answers `Failed` or `OutOfMemory` alone. Every other name stays. After `Failed` this name may
    /// hold anything or nothing, and after `OutOfMemory` all is as before.
    fn write(&mut self, alloc: Global, name: &str, bytes: &[u8]) -> Result<(), FileStop>
        ensures content { IfSome (held self.old) (λ m. WritesFile m name.now bytes.now (held self.new) result) }
        ensures others { IfSome (held self.old) (λ m. IsSomeAnd (held self.new) (KeepsOthers m name.now)) }
        ensures not_absent { IsErrOf result FileStop.Absent → ⊥ }
        ensures not_too_long { IsErrOf result FileStop.TooLong → ⊥ }
        ensures cause { Counts (faults self.old) (faults self.new) (IsErrOf result FileStop.Failed) };
}

/// A source of random words.
pub trait Draw {
    /// The words still to come, where they are told.
    ghost words: { Self → Option (List ℕ) };

    /// How many calls have failed, up to 2^64 - 1.
    ghost faults: { Self → ℕ };

    /// Takes the first of the words to come, or gives 0 where none is left.
    ///
    /// A call that fails takes none.
    fn word(&mut self) -> Result<u64, Failed>
        ensures content { IfSome (words self.old) (λ ws. DrawsWord ws (words self.new) result) }
        ensures cause { Counts (faults self.old) (faults self.new) (IsErr result) };
}

/// Where bytes are written.
pub trait Sink {
    /// The bytes written, where they are told.
    ghost written: { Self → Option (List ℕ) };

    /// How many calls have failed, up to 2^64 - 1.
    ghost faults: { Self → ℕ };

    /// Appends the bytes.
    ///
    /// After `Failed` some first ones of them were appended, and after `OutOfMemory` none.
    fn write(&mut self, alloc: Global, bytes: &[u8]) -> Result<(), Stop>
        ensures content { IfSome (written self.old) (λ w. Appends w bytes.now (written self.new) result) }
        ensures cause { Counts (faults self.old) (faults self.new) (IsErrOf result Stop.Failed) };
}
