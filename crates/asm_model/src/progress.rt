//! How far the first pass has come.

/// A section of the source.
#[derive(Clone, Copy, Drop)]
pub enum Section {
    Code,
    Data,
    Zero,
}

/// What the source assembles to.
#[derive(Clone, Copy, Drop)]
pub enum Header {
    /// An application: the bytes of each stack, and the number of threads.
    App { stack: u16, threads: u8 },
    /// A kernel module.
    Module,
}

/// The version of the object's form.
#[derive(Clone, Copy, Drop)]
pub enum Version {
    /// 1, where the source names none.
    One,
    /// 2, by `.version 2`.
    Two,
}

/// What the lines so far have said beside names and pieces.
#[derive(Clone, Copy, Drop)]
pub struct Progress {
    pub header: Option<Header>,
    pub version: Version,
    /// `.version` or `.equ` has come.
    pub named: bool,
    /// A statement other than the header, `.version` and `.equ` has come.
    pub begun: bool,
    pub section: Section,
    /// The entry has come.
    pub entered: bool,
    /// The least number that the next export may have.
    pub least_export: u8,
    /// Code words so far.
    pub code: u16,
    /// Initialised bytes so far.
    pub initialised: u16,
    /// Zeroed bytes so far.
    pub zeroed: u16,
}
