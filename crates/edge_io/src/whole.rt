//! Whole contents read from a folder, and written to a sink or a folder.

ghost use Rattle.std.specs.Prelude.{◌≡◌, ◌≤◌, ◌<◌, ◌+◌, ◌++◌, length, take, drop, IfOk, OnOk, OnErr};
ghost use Rattle.edge_io.specs.Known.{AnswersOf, GotPrefix, FileWritten, MayCreate, appended, put};
ghost use Rattle.edge_io.specs.Causes.{ReadLeaves, WriteLeaves, HasCause, input_failed};
ghost use Rattle.edge_io.specs.Steps.{BeginsOf, TurnsOf, TurnCalls};
ghost use Rattle.edge_io.specs.Turns.{FileTurns, ReadTurns, WriteTurns};

use crate::folder::{Folder, ReadErr, WriteErr};
use crate::name::Name;
use crate::sink::{Failed, Sink};
use item_lists::lists::Bytes;
use std::alloc::Global;

/// The most bytes that a whole read gives.
pub const WHOLE_BYTES: usize = 1_048_576;

/// How many bytes one turn of a whole read asks for at most.
const TURN_BYTES: usize = 4096;

/// Why a whole read gives nothing.
#[derive(Clone, Copy, Debug, PartialEq, Eq)]
pub enum InputFault {
    /// The name isn't held.
    Absent,
    /// A read failed, the count of read faults rose, and the name is the last failed name.
    Failed,
    /// The name holds over 1,048,576 bytes.
    TooLong,
    /// No memory was found.
    Memory,
}

/// Why a whole write ended before its end.
#[derive(Clone, Copy, Debug, PartialEq, Eq)]
pub enum SinkFault {
    /// A write failed, and the count of faults rose.
    Failed,
    /// A write took nothing of a rest that has bytes, and the count of faults rose.
    TookNone,
}

/// All the bytes of a file of at most 1,048,576 bytes. It takes at most 1,048,577 bytes, and each turn takes at least
/// one or is the last.
pub fn read_all<F: Folder>(alloc: Global, files: &mut F, name: &Name) -> Result<Bytes, InputFault>
    ensures answer { AnswersOf (F.state files.old).files name.now result }
    ensures small { IfOk result (λ bytes. length bytes ≤ 1048576) }
    ensures leaves { ReadLeaves (F.state files.old) (F.state files.new) name.now (input_failed result) }
    ensures calls { ReadTurns F.called files.old files.new name.now result }
{
    let mut got = Bytes::new(alloc);
    let mut into = [0; TURN_BYTES];
    while got.len() <= WHOLE_BYTES {
        let room = TURN_BYTES.min(WHOLE_BYTES + 1 - got.len());
        match turn(files, name, &mut into[..room], &mut got) {
            Ok(0) => return Ok(got),
            Ok(_) => {}
            Err(fault) => return Err(fault),
        }
    }
    Err(InputFault::TooLong)
}

/// One turn of a whole read: the file's next bytes are appended to what was got.
fn turn<F: Folder>(
    files: &mut F,
    name: &Name,
    into: &mut [u8],
    got: &mut Bytes,
) -> Result<usize, InputFault>
    requires space { 0 < length into.old }
    requires room { length got.old + length into.old ≤ 1048577 }
    requires begins { BeginsOf (F.state files.old).files name.now got.old }
    ensures begins { BeginsOf (F.state files.old).files name.now got.new }
    ensures grows { IfOk result (λ n. length got.new ≡ length got.old + n) }
    ensures size { IfOk result (λ n. n ≤ length into.old) }
    ensures turns { TurnsOf (F.state files.old).files name.now got.new result }
    ensures leaves { ReadLeaves (F.state files.old) (F.state files.new) name.now (input_failed result) }
    ensures calls { TurnCalls F.called name.now (length got.old) (length into.old) files.old files.new result }
{
    let at = got.len() as u32;
    match files.read(name, at, into) {
        Ok(n) => match got.extend_from_slice(&into[..n]) {
            Ok(()) => Ok(n),
            Err(_) => Err(InputFault::Memory),
        },
        Err(ReadErr::Absent) => Err(InputFault::Absent),
        Err(ReadErr::Failed) => Err(InputFault::Failed),
    }
}

/// Writes a whole piece. Each turn offers all that is left of it, and takes at least one byte or is the last.
pub fn write_all<S: Sink>(sink: &mut S, piece: &[u8]) -> Result<(), SinkFault>
    ensures whole { OnOk result ((S.state sink.new).bytes ≡ appended (S.state sink.old).bytes piece.now) }
    ensures prefix { OnErr result (GotPrefix (S.state sink.old).bytes (S.state sink.new).bytes piece.now) }
    ensures cause { HasCause (S.state sink.old).faults (S.state sink.new).faults result }
    ensures calls { WriteTurns S.called sink.old sink.new piece.now result }
{
    let mut rest = piece;
    while !rest.is_empty() {
        match sink.write(rest) {
            Ok(0) => return Err(SinkFault::TookNone),
            Ok(n) => rest = past(rest, n),
            Err(Failed) => return Err(SinkFault::Failed),
        }
    }
    Ok(())
}

/// What is left of a piece behind its first bytes.
fn past(piece: &[u8], n: usize) -> &[u8]
    requires { n ≤ length piece.now }
    ensures rest { result.now ≡ drop n piece.now }
    ensures parts { take n piece.now ++ result.now ≡ piece.now }
    ensures size { length result.now + n ≡ length piece.now }
{
    &piece[n..]
}

/// Writes a whole file: the name is created and holds these bytes. After a fault of the creation files and created name
/// are as before, after a later one the name holds a prefix.
pub fn write_file<F: Folder>(files: &mut F, name: &Name, whole: &[u8]) -> Result<(), SinkFault>
    requires { MayCreate (F.state files.old).created name.now }
    ensures written { FileWritten (F.state files.old) (F.state files.new) name.now whole.now result }
    ensures leaves { WriteLeaves (F.state files.old) (F.state files.new) }
    ensures cause { HasCause (F.state files.old).write_faults (F.state files.new).write_faults result }
    ensures calls { FileTurns F.called files.old files.new name.now whole.now result }
{
    match files.create(name) {
        Ok(()) => {}
        Err(WriteErr::Failed) => return Err(SinkFault::Failed),
    }
    let mut rest = whole;
    while !rest.is_empty() {
        match files.append(name, rest) {
            Ok(0) => return Err(SinkFault::TookNone),
            Ok(n) => rest = past(rest, n),
            Err(WriteErr::Failed) => return Err(SinkFault::Failed),
        }
    }
    Ok(())
}
