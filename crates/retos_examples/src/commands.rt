//! Commands over files in memory.

ghost use Rattle.std.specs.Prelude.{◌≡◌, None, IfOk};

use edge_io::calls::Calls;
use edge_io::mem_folder::MemFolder;
use edge_io::mem_sink::MemSink;
use edge_io::name::Name;
use edge_io::words::Words;
use retos_cli::outcome::Status;
use retos_cli::top::retos;
use std::alloc::{AllocError, Global};

/// How many bytes a file that a command makes has at most, and what it prints.
const ROOM: u32 = 65_536;

/// A file that a command finds: its name, and its bytes.
pub type Stored<'a> = (&'a str, &'a [u8]);

/// What a command left: its folder, what it printed, and its status.
#[derive(Drop)]
pub struct Left {
    files: MemFolder,
    out: MemSink,
    status: Status,
}

impl Left {
    /// The bytes of a file. None of a name that isn't held.
    pub fn file(&self, name: &str) -> &[u8] {
        match Name::from_slice(name.as_bytes()) {
            Some(name) => self.files.held(&name).unwrap_or(&[]),
            None => &[],
        }
    }

    /// What was printed.
    pub fn text(&self) -> &str {
        str::from_utf8(self.out.bytes()).unwrap_or("")
    }

    /// The status.
    pub fn status(&self) -> Status {
        self.status
    }
}

/// Does what a line of words says in a folder of these files.
pub fn leave(alloc: Global, line: &str, stored: &[Stored]) -> Result<Left, AllocError> {
    let words = words_of(alloc, line)?;
    let mut files = folder_of(alloc, stored)?;
    let mut out = sink(alloc)?;
    let mut err = sink(alloc)?;
    let status = do_words(alloc, &words, &mut files, &mut out, &mut err);
    Ok(Left { files, out, status })
}

/// Does what words say in a folder in which no name was created.
#[tactic(auto, using(retos_cli::proofs::Sources::may_run_fresh))]
fn do_words(
    alloc: Global,
    words: &Words,
    files: &mut MemFolder,
    out: &mut MemSink,
    err: &mut MemSink,
) -> Status
    requires { files.old.created ≡ None }
{
    retos(alloc, words, files, out, err)
}

/// The words of a line.
fn words_of(alloc: Global, line: &str) -> Result<Words, AllocError> {
    let mut words = Words::new(alloc);
    for word in line.split_whitespace() {
        words.push(word.as_bytes())?;
    }
    Ok(words)
}

/// A sink in which nothing fails.
fn sink(alloc: Global) -> Result<MemSink, AllocError> {
    MemSink::new(alloc, ROOM, Calls::new(alloc), Calls::new(alloc))
}

/// A folder of these files in which nothing fails.
fn folder_of(alloc: Global, stored: &[Stored]) -> Result<MemFolder, AllocError>
    ensures { IfOk result (λ files. files.created ≡ None) }
{
    let none = Calls::new(alloc);
    let mut files = MemFolder::new(alloc, ROOM, Calls::new(alloc), Calls::new(alloc), none)?;
    for (name, whole) in stored {
        add(&mut files, name, whole)?;
    }
    Ok(files)
}

/// Adds a file, if its name isn't held.
fn add(files: &mut MemFolder, name: &str, whole: &[u8]) -> Result<(), AllocError>
    ensures { files.new.created ≡ files.old.created }
{
    if let Some(name) = Name::from_slice(name.as_bytes()) {
        if files.held(&name).is_none() {
            files.put(&name, whole)?;
        }
    }
    Ok(())
}
