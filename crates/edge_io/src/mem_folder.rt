//! A folder in memory.

ghost use Rattle.std.specs.Prelude.{◌≡◌, ◌+◌, ◌++◌, ◌-◌, ◌≤◌, min, [], ◌∷◌, length, take, drop, vec_capacity, None, Some, IfOk, OnOk, OnErr, is_err};
ghost use Rattle.std.specs.Option.{option_copied};
ghost use Rattle.edge_io.specs.Known.{GivesOf, MayCreate, extended, held, put, taken};
ghost use Rattle.edge_io.specs.Causes.{read_failed};
ghost use Rattle.edge_io.specs.Memory.{FollowsCall, HasGiven, WriteAnswer, after_append, after_create, after_read, empty_folder, held_files, files_of, folder_state, found, names_created, one_up, read_answer, with_file};
ghost use Rattle.edge_io.specs.Numbered.{has_call};

use crate::calls::{Calls, has_call};
use crate::copying::copy_over;
use crate::counts::one_up;
use crate::folder::{Folder, ReadErr, WriteErr};
use crate::mem_sink::{append_within, count_taken};
use crate::name::Name;
use item_lists::lists::Bytes;
use std::alloc::{AllocError, Global};
use std::marker::Model;

/// A folder that keeps its files, with room for the one that is written. Its calls are numbered from 0, reads apart from
/// writes; `create` and `append` are writes.
#[derive(Drop)]
pub struct MemFolder {
    written: Vec<u8>,
    others: Vec<(Name, Bytes)>,
    room: usize,
    fail_reads: Calls,
    fail_writes: Calls,
    none: Calls,
    reads: u64,
    writes: u64,
    read_faults: u64,
    write_faults: u64,
    last_failed: Option<Name>,
    created: Option<Name>,
    alloc: Global,
}

impl Model for MemFolder {
    ghost use Rattle.std.specs.Prelude.{◌≤◌, length, vec_capacity};
    ghost use Rattle.edge_io.specs.Memory.{MemFolderState};

    ghost Value = { MemFolderState };

    ghost view = { λ s. record { written = s.written.items; others = s.others.items; room = s.room; fail_reads = s.fail_reads; fail_writes = s.fail_writes; none = s.none; reads = s.reads; writes = s.writes; read_faults = s.read_faults; write_faults = s.write_faults; last_failed = s.last_failed; created = s.created } };

    ghost invariant = { λ s. (length s.written.items ≤ s.room) × (s.room ≤ vec_capacity s.written) };
}

impl MemFolder {
    /// A folder without files, with room for so many bytes of the file that is written, which takes the memory for them
    /// at once. The reads numbered in `fail_reads` and the writes in `fail_writes` fail, the appends in `none` take
    /// nothing.
    pub fn new(
        alloc: Global,
        room: u32,
        fail_reads: Calls,
        fail_writes: Calls,
        none: Calls,
    ) -> Result<MemFolder, AllocError>
        ensures { IfOk result (λ folder. folder ≡ empty_folder room fail_reads fail_writes none) }
    {
        let room = room as usize;
        Ok(MemFolder {
            written: Vec::with_capacity(alloc, room)?,
            others: Vec::new(alloc),
            room,
            fail_reads,
            fail_writes,
            none,
            reads: 0,
            writes: 0,
            read_faults: 0,
            write_faults: 0,
            last_failed: None,
            created: None,
            alloc,
        })
    }

    /// Adds a file, or leaves the folder where there is no memory.
    pub fn put(&mut self, name: &Name, whole: &[u8]) -> Result<(), AllocError>
        requires { found (held_files self.old) name.now ≡ None }
        ensures added { OnOk result (self.new ≡ with_file self.old name.now whole.now) }
        ensures told { OnOk result ((folder_state self.new).files ≡ put (folder_state self.old).files name.now whole.now) }
        ensures kept { OnErr result (self.new ≡ self.old) }
    {
        let bytes = Bytes::from_slice(self.alloc, whole)?;
        self.others.push((name.copied(), bytes))?;
        Ok(())
    }

    /// The bytes of a file. None exactly where the name isn't held.
    pub fn held(&self, name: &Name) -> Option<&[u8]>
        ensures listed { option_copied result ≡ found (held_files self.now) name.now }
        ensures told { option_copied result ≡ held (files_of self.now) name.now }
    {
        if is_created(&self.created, name) {
            return Some(self.written.as_slice());
        }
        find(&self.others, name)
    }
}

/// Whether there is a created name, and it is this one.
fn is_created(created: &Option<Name>, name: &Name) -> bool
    ensures { result ≡ names_created created.now name.now }
{
    match created {
        Some(created) => name.as_slice() == created.as_slice(),
        None => false,
    }
}

/// What the first entry of this name holds.
fn find<'a>(others: &'a [(Name, Bytes)], name: &Name) -> Option<&'a [u8]>
    ensures { option_copied result ≡ found others.now name.now }
{
    for (key, bytes) in others {
        if name.as_slice() == key.as_slice() {
            return Some(bytes.as_slice());
        }
    }
    None
}

/// Gives the bytes from a place on, as many as there are and as there is room for.
fn give(bytes: &[u8], at: u32, into: &mut [u8]) -> usize
    ensures count { result ≡ min (length into.old) (length bytes.now - at) }
    ensures given { take result into.new ≡ take result (drop at bytes.now) }
{
    let at = at as usize;
    if at >= bytes.len() {
        return 0;
    }
    let rest = &bytes[at..];
    let count = rest.len().min(into.len());
    copy_over(into, &rest[..count]);
    count
}

impl Folder for MemFolder {
    ghost use Rattle.edge_io.specs.Memory.{holds_created};

    ghost state = { folder_state };

    ghost called = { FollowsCall };

    fn read(&mut self, name: &Name, at: u32, into: &mut [u8]) -> Result<usize, ReadErr>
        ensures answer { result ≡ read_answer (found (held_files self.old) name.now) (has_call self.old.fail_reads self.old.reads) at (length into.old) }
        ensures given { HasGiven (found (held_files self.old) name.now) at into.new result }
        ensures gives { GivesOf (folder_state self.old).files name.now at into.new result }
        ensures after { self.new ≡ after_read self.old name.now (read_failed result) }
    {
        let call = self.reads;
        let fails = has_call(&self.fail_reads, call);
        let answer = match self.held(name) {
            None => Err(ReadErr::Absent),
            Some(bytes) => {
                if fails {
                    Err(ReadErr::Failed)
                } else {
                    Ok(give(bytes, at, into))
                }
            }
        };
        self.reads = one_up(call);
        if let Err(ReadErr::Failed) = answer {
            self.read_faults = one_up(self.read_faults);
            self.last_failed = Some(name.copied());
        }
        answer
    }

    fn create(&mut self, name: &Name) -> Result<(), WriteErr>
        requires { MayCreate self.old.created name.now }
        ensures answer { is_err result ≡ has_call self.old.fail_writes self.old.writes }
        ensures created { OnOk result ((folder_state self.new).files ≡ put (folder_state self.old).files name.now []) }
        ensures after { self.new ≡ after_create self.old name.now (is_err result) }
    {
        let call = self.writes;
        self.writes = one_up(call);
        if has_call(&self.fail_writes, call) {
            self.write_faults = one_up(self.write_faults);
            return Err(WriteErr::Failed);
        }
        self.written.clear();
        self.created = Some(name.copied());
        Ok(())
    }

    fn append(&mut self, name: &Name, piece: &[u8]) -> Result<usize, WriteErr>
        requires { self.old.created ≡ Some name.now }
        ensures answer { WriteAnswer result (has_call self.old.fail_writes self.old.writes) (has_call self.old.none self.old.writes) (self.old.room - length self.old.written) piece.now }
        ensures files { (folder_state self.new).files ≡ extended (folder_state self.old).files name.now (taken result piece.now) }
        ensures after { self.new ≡ after_append self.old result piece.now }
    {
        let call = self.writes;
        let left = self.room - self.written.len();
        self.writes = one_up(call);
        if has_call(&self.fail_writes, call) {
            self.write_faults = one_up(self.write_faults);
            return Err(WriteErr::Failed);
        }
        let taken = count_taken(has_call(&self.none, call), left, piece);
        if taken == 0 && !piece.is_empty() {
            self.write_faults = one_up(self.write_faults);
        }
        append_within(&mut self.written, &piece[..taken]);
        Ok(taken)
    }

    ghost holds_created = { holds_created };
}
