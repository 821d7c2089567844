//! Kinds of domains.

/// What a domain is, and with it the object that is placed there.
#[derive(Clone, Copy, PartialEq, Eq, Debug, Drop)]
pub enum Kind {
    /// An application: stacks, threads and an entry.
    App,
    /// A kernel module: exported functions.
    Module,
}
