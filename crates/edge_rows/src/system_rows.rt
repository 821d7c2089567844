//! Rows on the system's own files and its standard output.

use crate::test_support::name_of;
use edge_io::name::Name;
use edge_io::standard::{StdFolder, StdSink};
use edge_io::whole::{InputFault, read_all, write_all, write_file};
use std::alloc::Global;
use std::fs;
use std::process::Abort;
use std::test::Fail;

/// Tells where a folder doesn't hold these bytes under a name.
fn compare_file(
    rt: &impl Abort,
    alloc: Global,
    files: &mut StdFolder,
    name: &Name,
    wanted: &[u8],
) -> Result<(), Fail> {
    let got = read_all(alloc, files, name).ok().ok_or("the file")?;
    assert_eq!(rt; got.as_slice(), wanted);
    Ok(())
}

#[test]
fn files_of_the_system_are_written_and_read_back(rt: HostRuntime) -> Result<(), Fail> {
    let name = name_of(b"edge_io_test.txt")?;
    let mut files = StdFolder::new(rt);
    assert_eq!(rt; write_file(&mut files, &name, b"abcdef"), Ok(()));
    compare_file(&rt, rt.alloc(), &mut files, &name, b"abcdef")?;
    fs::remove_file(&rt, "edge_io_test.txt")?;
    let absent = read_all(rt.alloc(), &mut files, &name);
    assert_eq!(rt; absent.map(|bytes| bytes.len()), Err(InputFault::Absent));
    Ok(())
}

#[test]
fn standard_output_takes_a_line(rt: HostRuntime) {
    let mut sink = StdSink::new(rt.stdout());
    assert_eq!(rt; write_all(&mut sink, b"a line\n"), Ok(()));
}
