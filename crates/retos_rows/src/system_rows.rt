//! The program over the system's folder.

ghost use Rattle.std.specs.Prelude.{◌≡◌, None};

use crate::test_support::{Case, SELF_JUMP, compare, sink, unwritten, words_of};
use edge_io::mem_sink::MemSink;
use edge_io::name::Name;
use edge_io::standard::StdFolder;
use edge_io::whole::{read_all, write_file};
use edge_io::words::Words;
use retos_cli::outcome::Status;
use retos_cli::top::retos;
use std::alloc::Global;
use std::fs;
use std::process::Abort;
use std::test::Fail;

/// Does what words say in the system's folder, in which no name was created.
#[tactic(auto, using(retos_cli::proofs::Sources::may_run_fresh))]
fn do_here(
    alloc: Global,
    words: &Words,
    files: &mut StdFolder,
    out: &mut MemSink,
    err: &mut MemSink,
) -> Status
    requires { files.old.created ≡ None }
{
    retos(alloc, words, files, out, err)
}

/// Writes the source of a jump to itself into the system's folder, in which no name was created.
fn put_source(rt: &impl Abort, files: &mut StdFolder) -> Result<(), Fail>
    requires { files.old.created ≡ None }
{
    let source = Name::from_slice(b"retos_cli_test.s").ok_or("a name")?;
    let text = b".app 16 1\n.entry s\ns: JMP s\n";
    assert!(rt; write_file(files, &source, text).is_ok());
    Ok(())
}

/// What the assembler prints of the source.
const ASSEMBLED: Case = Case {
    line: "asm retos_cli_test.s retos_cli_test.o",
    out: "retos_cli_test.o: assembled 1 words\n",
    err: "",
    status: 0,
};

/// Assembles the source in the system's folder, and tells where it comes to something else.
fn try_here(rt: &impl Abort, alloc: Global, files: &mut StdFolder) -> Result<(), Fail>
    requires { files.old.created ≡ None }
{
    let words = words_of(alloc, ASSEMBLED.line)?;
    let mut left = unwritten(alloc, sink(alloc, &[])?, &[])?;
    left.status = do_here(alloc, &words, files, &mut left.out, &mut left.err);
    compare(rt, &left, &ASSEMBLED);
    Ok(())
}

/// Tells where the system's folder doesn't hold these bytes under a name.
fn compare_file(
    rt: &impl Abort,
    alloc: Global,
    files: &mut StdFolder,
    name: &Name,
    wanted: &[u8],
) -> Result<(), Fail> {
    let got = read_all(alloc, files, name).ok().ok_or("the object")?;
    assert_eq!(rt; got.as_slice(), wanted);
    Ok(())
}

#[test]
fn a_source_of_the_system_is_assembled(rt: HostRuntime) -> Result<(), Fail> {
    let object = Name::from_slice(b"retos_cli_test.o").ok_or("a name")?;
    put_source(&rt, &mut StdFolder::new(rt))?;
    let mut files = StdFolder::new(rt);
    try_here(&rt, rt.alloc(), &mut files)?;
    compare_file(&rt, rt.alloc(), &mut files, &object, &SELF_JUMP)?;
    fs::remove_file(&rt, "retos_cli_test.s")?;
    fs::remove_file(&rt, "retos_cli_test.o")?;
    Ok(())
}
