//! How applications end.

/// How an application ended.
#[derive(Clone, Copy, PartialEq, Eq, Debug, Drop)]
pub enum AppEnd {
    /// Its last thread ended.
    Done,
    /// One of its tests failed.
    Faulted,
}
