//! Codes that the kernel's entries answer in R12 in place of 0.

/// Why an entry did nothing.
#[derive(Clone, Copy, PartialEq, Eq, Debug, Drop)]
pub enum Code {
    /// All threads of the application are live.
    Full,
    /// An argument that no call takes.
    BadArgument,
    /// The caller doesn't own the mutex.
    NotOwner,
    /// The caller owns the mutex already.
    OwnLock,
    /// No module has exported the function.
    NoFunction,
    /// The function's module has ended.
    ModuleEnded,
}
