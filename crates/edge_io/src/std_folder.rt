//! The system's files. They tell no contents; what the system holds and gives is trusted.

ghost use Rattle.std.specs.Prelude.{◌≡◌, ◌≤◌, None, Some, IfOk, is_err, length, if◌then◌else◌};
ghost use Rattle.edge_io.specs.Known.{MayCreate};
ghost use Rattle.edge_io.specs.Causes.{read_failed};
ghost use Rattle.edge_io.specs.Memory.{is_fault, up_if};
ghost use Rattle.edge_io.specs.Standard.{fresh_folder, untold_folder};

use crate::counts::one_up;
use crate::folder::{Folder, ReadErr, WriteErr};
use crate::name::Name;
use std::fs::File;
use std::io::{ErrorKind, Write};
use std::marker::Model;
use std::os::unix::fs::FileExt;
use std::str;

/// A file that is being read.
#[derive(Drop)]
struct Opened {
    name: Name,
    file: File,
}

/// The files below the working folder. It keeps the file that it created open, and appends to it, and keeps the file that it
/// reads open from its first byte on.
#[derive(Drop)]
pub struct StdFolder {
    rt: HostRuntime,
    file: Option<File>,
    reading: Option<Opened>,
    read_faults: u64,
    write_faults: u64,
    last_failed: Option<Name>,
    created: Option<Name>,
}

impl Model for StdFolder {
    ghost use Rattle.edge_io.specs.Standard.{StdFolderState};

    ghost Value = { StdFolderState };

    ghost view = { λ s. record { read_faults = s.read_faults; write_faults = s.write_faults; last_failed = s.last_failed; created = s.created } };
}

impl StdFolder {
    /// The folder, with no fault yet, no last failed name and no created name.
    pub fn new(rt: HostRuntime) -> StdFolder
        ensures { result ≡ fresh_folder }
    {
        StdFolder {
            rt,
            file: None,
            reading: None,
            read_faults: 0,
            write_faults: 0,
            last_failed: None,
            created: None,
        }
    }
}

/// The path that a name is. None where its bytes aren't text, which no file is then opened by.
fn path_of(name: &Name) -> Option<&str> {
    str::from_utf8(name.as_slice()).ok()
}

/// Opens a file to read it.
fn open_file(rt: &HostRuntime, name: &Name) -> Result<Opened, ReadErr> {
    let path = path_of(name).ok_or(ReadErr::Failed)?;
    match File::open(rt, path) {
        Ok(file) => Ok(Opened {
            name: name.copied(),
            file,
        }),
        Err(error) if error.kind() == ErrorKind::NotFound => Err(ReadErr::Absent),
        Err(_) => Err(ReadErr::Failed),
    }
}

/// Reads bytes of a file from a place on: of the one that is kept open, if it has this name and isn't read from its start again.
fn read_file(
    rt: &HostRuntime,
    kept: &mut Option<Opened>,
    name: &Name,
    at: u32,
    into: &mut [u8],
) -> Result<usize, ReadErr>
    ensures { IfOk result (λ n. n ≤ length into.old) }
{
    let opened = match kept.take() {
        Some(opened) if at > 0 && opened.name.as_slice() == name.as_slice() => opened,
        _ => open_file(rt, name)?,
    };
    let answer = match opened.file.read_at(into, u64::from(at)) {
        Ok(count) => Ok(count),
        Err(_) => Err(ReadErr::Failed),
    };
    *kept = Some(opened);
    answer
}

/// Makes a file empty, and opens it.
fn create_file(rt: &HostRuntime, name: &Name) -> Option<File> {
    File::create(rt, path_of(name)?).ok()
}

impl Folder for StdFolder {
    ghost state = { untold_folder };

    ghost called = { λ _ _ _. Unit {0} };

    fn read(&mut self, name: &Name, at: u32, into: &mut [u8]) -> Result<usize, ReadErr>
        ensures size { IfOk result (λ n. n ≤ length into.old) }
        ensures after { self.new ≡ record self.old { read_faults = up_if (read_failed result) self.old.read_faults; last_failed = (if read_failed result then Some name.now else self.old.last_failed) } }
    {
        let answer = read_file(&self.rt, &mut self.reading, name, at, into);
        if let Err(ReadErr::Failed) = answer {
            self.read_faults = one_up(self.read_faults);
            self.last_failed = Some(name.copied());
        }
        answer
    }

    fn create(&mut self, name: &Name) -> Result<(), WriteErr>
        requires { MayCreate self.old.created name.now }
        ensures after { self.new ≡ record self.old { write_faults = up_if (is_err result) self.old.write_faults; created = (if is_err result then self.old.created else Some name.now) } }
    {
        match create_file(&self.rt, name) {
            Some(file) => {
                self.file = Some(file);
                self.created = Some(name.copied());
                Ok(())
            }
            None => {
                self.write_faults = one_up(self.write_faults);
                Err(WriteErr::Failed)
            }
        }
    }

    fn append(&mut self, name: &Name, piece: &[u8]) -> Result<usize, WriteErr>
        requires { self.old.created ≡ Some name.now }
        ensures size { IfOk result (λ n. n ≤ length piece.now) }
        ensures after { self.new ≡ record self.old { write_faults = up_if (is_fault result piece.now) self.old.write_faults } }
    {
        let count = match &mut self.file {
            Some(file) => file.write(piece).ok(),
            None => None,
        };
        match count {
            Some(count) => {
                if count == 0 && !piece.is_empty() {
                    self.write_faults = one_up(self.write_faults);
                }
                Ok(count)
            }
            None => {
                self.write_faults = one_up(self.write_faults);
                Err(WriteErr::Failed)
            }
        }
    }

    ghost holds_created = { λ _. tt };
}
