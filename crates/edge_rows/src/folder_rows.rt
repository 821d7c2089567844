//! Rows on folders: what whole reads and writes of files answer, by size, room and faults.

ghost use Rattle.std.specs.Prelude.{◌≡◌, None, Some, IfOk};

use crate::test_support::{calls, name_of, text};
use edge_io::calls::Calls;
use edge_io::folder::{Folder, ReadErr, WriteErr};
use edge_io::mem_folder::MemFolder;
use edge_io::name::Name;
use edge_io::whole::{InputFault, SinkFault, WHOLE_BYTES, read_all, write_file};
use std::alloc::Global;
use std::process::Abort;
use std::test::Fail;

/// A folder in memory with a file `in` of so many bytes, whose reads with these numbers fail.
fn folder_of(alloc: Global, size: u32, fail_reads: &[u32]) -> Result<MemFolder, Fail> {
    let whole = text(alloc, size)?;
    let reads = calls(alloc, fail_reads)?;
    let mut files = MemFolder::new(alloc, 0, reads, Calls::new(alloc), Calls::new(alloc))?;
    let name = name_of(b"in")?;
    files.put(&name, whole.as_slice())?;
    Ok(files)
}

/// The greatest size of a whole read.
const WHOLE: u32 = WHOLE_BYTES as u32;

/// A name, the size of the file `in`, the reads that fail, and how many bytes a whole read gives, or why none.
const READS: [(&[u8], u32, &[u32], Result<usize, InputFault>); 9] = [
    (b"in", 0, &[], Ok(0)),
    (b"in", 5000, &[], Ok(5000)),
    (b"in", WHOLE, &[], Ok(WHOLE_BYTES)),
    (b"in", WHOLE + 1, &[], Err(InputFault::TooLong)),
    (b"out", 5, &[], Err(InputFault::Absent)),
    (b"in", 5000, &[0], Err(InputFault::Failed)),
    (b"in", 5000, &[1], Err(InputFault::Failed)),
    (b"in", 5000, &[2], Err(InputFault::Failed)),
    (b"in", 5000, &[3], Ok(5000)),
];

/// How many bytes a whole read gives, or why none.
fn read_size(alloc: Global, files: &mut MemFolder, name: &Name) -> Result<usize, InputFault> {
    read_all(alloc, files, name).map(|bytes| bytes.len())
}

#[test]
fn whole_reads_end_by_size_and_faults(rt: HostRuntime) -> Result<(), Fail> {
    for (name, size, fail_reads, answer) in &READS {
        let mut files = folder_of(rt.alloc(), *size, fail_reads)?;
        let got = read_size(rt.alloc(), &mut files, &name_of(name)?);
        assert_eq!(rt; got, *answer, "of {size} bytes");
    }
    Ok(())
}

/// The room of a folder, the writes that fail and those that take nothing, what the write of a file of six bytes answers, and what
/// is then held.
type Row<'a> = (
    u32,
    &'a [u32],
    &'a [u32],
    Result<(), SinkFault>,
    Option<&'a [u8]>,
);

const FILE_WRITES: [Row; 5] = [
    (9, &[], &[], Ok(()), Some(b"abcdef")),
    (4, &[], &[], Err(SinkFault::TookNone), Some(b"abcd")),
    (9, &[0], &[], Err(SinkFault::Failed), None),
    (9, &[1], &[], Err(SinkFault::Failed), Some(b"")),
    (9, &[], &[1], Err(SinkFault::TookNone), Some(b"")),
];

/// Tells where a row comes to something else.
fn try_file_write(rt: &impl Abort, alloc: Global, row: &Row) -> Result<(), Fail> {
    let (room, fail, none, answer, held) = row;
    let (fail, none) = (calls(alloc, fail)?, calls(alloc, none)?);
    let mut files = MemFolder::new(alloc, *room, Calls::new(alloc), fail, none)?;
    let name = name_of(b"out")?;
    assert_eq!(rt; write_file(&mut files, &name, b"abcdef"), *answer);
    assert_eq!(rt; files.held(&name), *held);
    Ok(())
}

#[test]
fn files_are_written_whole_or_in_part(rt: HostRuntime) -> Result<(), Fail> {
    for row in &FILE_WRITES {
        try_file_write(&rt, rt.alloc(), row)?;
    }
    Ok(())
}

/// A folder in memory with room for 2 bytes, whose read 0 and write 1 fail.
fn folder_of_two(alloc: Global) -> Result<MemFolder, Fail>
    ensures { IfOk result (λ files. files.created ≡ None) }
{
    let (reads, writes) = (calls(alloc, &[0])?, calls(alloc, &[1])?);
    Ok(MemFolder::new(alloc, 2, reads, writes, Calls::new(alloc))?)
}

/// Tells where two reads after the appends answer otherwise.
fn compare_reads(rt: &impl Abort, files: &mut MemFolder, name: &Name) {
    let mut into = [0; 4];
    assert_eq!(rt; files.read(name, 0, &mut into), Err(ReadErr::Failed));
    assert_eq!(rt; files.read(name, 1, &mut into), Ok(1));
    assert_eq!(rt; into, [b'b', 0, 0, 0]);
}

/// Tells where an append to the created name answers otherwise.
fn compare_append(
    rt: &impl Abort,
    files: &mut MemFolder,
    name: &Name,
    piece: &[u8],
    answer: Result<usize, WriteErr>,
)
    requires { files.old.created ≡ Some name.now }
    ensures { files.new.created ≡ files.old.created }
{
    assert_eq!(rt; files.append(name, piece), answer);
}

#[test]
fn folder_in_memory_numbers_reads_apart_from_writes(rt: HostRuntime) -> Result<(), Fail> {
    let mut files = folder_of_two(rt.alloc())?;
    let name = name_of(b"out")?;
    assert_eq!(rt; files.create(&name), Ok(()));
    compare_append(&rt, &mut files, &name, b"ab", Err(WriteErr::Failed));
    compare_append(&rt, &mut files, &name, b"abc", Ok(2));
    compare_append(&rt, &mut files, &name, b"c", Ok(0));
    compare_reads(&rt, &mut files, &name);
    Ok(())
}
