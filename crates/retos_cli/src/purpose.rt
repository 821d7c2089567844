//! What a command asks of an input.

/// What an input is for.
#[derive(Clone, Copy, PartialEq, Eq, Debug, Drop)]
pub enum Purpose {
    /// An object to check, or to run under a script.
    Checked,
    /// An application to run alone.
    Application,
    /// A source text to assemble.
    Source,
    /// An object that is to get guards.
    Plain,
    /// The script of a run.
    Script,
}
