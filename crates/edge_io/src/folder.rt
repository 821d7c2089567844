//! A folder of files by name.

ghost use Rattle.std.specs.Prelude.{◌≡◌, ℕ, ◌≤◌, List, [], length, Some, IfOk, OnOk, OnErr};
ghost use Rattle.edge_io.specs.Known.{FolderState, GivesOf, MayCreate, HoldsCreated, put, extended, taken};
ghost use Rattle.edge_io.specs.Causes.{ReadLeaves, WriteLeaves, HasCause, WriteCause, read_failed};
ghost use Rattle.edge_io.specs.Turns.{FolderCall, append_call, create_call, read_call};

use crate::name::Name;

/// Why a read gives nothing.
#[derive(Clone, Copy, Debug, PartialEq, Eq)]
pub enum ReadErr {
    /// The name isn't held.
    Absent,
    /// The read failed, and the count of read faults rose.
    Failed,
}

/// Why a write doesn't take place.
#[derive(Clone, Copy, Debug, PartialEq, Eq)]
pub enum WriteErr {
    /// The write failed, and the count of write faults rose.
    Failed,
}

/// A finite map from names to bytes, where it tells it, with a count of read faults and one of write faults, which never
/// fall, the name of the last read that failed, and the name of the last `create` that didn't. A count stops at its
/// last value, 2^64 - 1; there "rose" reads "stands at its last value".
pub trait Folder {
    /// What the folder means.
    ghost state: { Self → FolderState };

    /// How a call and its answer lead from one folder to another.
    ghost called: { Self → FolderCall → Self → Type 0 };

    /// Gives the bytes of a file from a place on, as many as it likes, but at least one if the slice has room and the
    /// file goes on. Absent exactly where the name isn't held. Failed only where the count of read faults rose; the name
    /// is then the last failed name.
    fn read(&mut self, name: &Name, at: u32, into: &mut [u8]) -> Result<usize, ReadErr>
        ensures size { IfOk result (λ n. n ≤ length into.old) }
        ensures gives { GivesOf (state self.old).files name.now at into.new result }
        ensures leaves { ReadLeaves (state self.old) (state self.new) name.now (read_failed result) }
        ensures call { called self.old (read_call name.now at result) self.new };

    /// Makes the name hold no bytes, and be the created name. Failed only where the count of write faults rose; nothing
    /// else has then changed.
    fn create(&mut self, name: &Name) -> Result<(), WriteErr>
        requires { MayCreate (state self.old).created name.now }
        ensures created { OnOk result (((state self.new).files ≡ put (state self.old).files name.now []) × ((state self.new).created ≡ Some name.now)) }
        ensures kept { OnErr result (((state self.new).files ≡ (state self.old).files) × ((state self.new).created ≡ (state self.old).created)) }
        ensures leaves { WriteLeaves (state self.old) (state self.new) }
        ensures cause { HasCause (state self.old).write_faults (state self.new).write_faults result }
        ensures call { called self.old (create_call name.now result) self.new };

    /// Appends the first bytes of the piece, as many as it likes, to what the created name holds. Failed, or 0 of a
    /// nonempty piece, only where the count of write faults rose; nothing else has then changed.
    fn append(&mut self, name: &Name, piece: &[u8]) -> Result<usize, WriteErr>
        requires { (state self.old).created ≡ Some name.now }
        ensures size { IfOk result (λ n. n ≤ length piece.now) }
        ensures files { (state self.new).files ≡ extended (state self.old).files name.now (taken result piece.now) }
        ensures kept { OnErr result ((state self.new).files ≡ (state self.old).files) }
        ensures created { (state self.new).created ≡ (state self.old).created }
        ensures leaves { WriteLeaves (state self.old) (state self.new) }
        ensures cause { WriteCause (state self.old).write_faults (state self.new).write_faults result piece.now }
        ensures call { called self.old (append_call name.now piece.now result) self.new };

    /// Where the map is told, it holds the created name.
    ghost holds_created: { (folder : Self) → HoldsCreated (state folder).files (state folder).created };
}
