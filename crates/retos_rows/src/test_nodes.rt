//! Nodes for the tests: objects of source texts under a script.

ghost use Rattle.std.specs.Prelude.{◌≡◌, None, IfOk};

use crate::test_support::{Case, Stored, add, compare, filled, guarded, leave, with_files};
use edge_io::mem_folder::MemFolder;
use std::alloc::Global;
use std::process::Abort;
use std::test::Fail;

/// A source text, and the name that its object gets.
#[derive(Clone, Copy)]
pub struct Source<'a> {
    pub name: &'a [u8],
    pub text: &'a [u8],
}

/// Adds the object of a source text with its guards.
pub fn add_guarded(alloc: Global, files: &mut MemFolder, source: &Source) -> Result<(), Fail>
    ensures { files.new.created ≡ files.old.created }
{
    let object = guarded(alloc, source.text)?;
    add(files, source.name, object.as_slice())
}

/// A folder with a script, which is named `s`, and with the objects of sources, in which these reads fail.
pub fn node(
    alloc: Global,
    fail: &[u32],
    script: &[u8],
    sources: &[Source],
) -> Result<MemFolder, Fail>
    ensures { IfOk result (λ files. files.created ≡ None) }
{
    let mut files = filled(alloc, fail, &[(b"s", script)])?;
    for source in sources {
        add_guarded(alloc, &mut files, source)?;
    }
    Ok(files)
}

/// Does what a case's words say, and tells where it comes to something else.
pub fn try_node(
    rt: &impl Abort,
    alloc: Global,
    files: &mut MemFolder,
    case: &Case,
) -> Result<(), Fail>
    requires { files.old.created ≡ None }
{
    let left = leave(alloc, files, case.line, 100_000)?;
    compare(rt, &left, case);
    Ok(())
}

/// Runs `run s` for so many steps over the objects of sources under a script, and tells where out or the status is another.
pub fn try_run(
    rt: &impl Abort,
    alloc: Global,
    sources: &[Source],
    script: &[u8],
    case: &Case,
) -> Result<(), Fail> {
    let mut files = node(alloc, &[], script, sources)?;
    try_node(rt, alloc, &mut files, case)
}

/// The same where the folder has these files too.
pub fn try_beside(
    rt: &impl Abort,
    alloc: Global,
    sources: &[Source],
    script: &[u8],
    stored: &[Stored],
    case: &Case,
) -> Result<(), Fail> {
    let files = node(alloc, &[], script, sources)?;
    let mut files = with_files(files, stored)?;
    try_node(rt, alloc, &mut files, case)
}
