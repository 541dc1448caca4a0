//! How rows are grouped.

/// How rows are grouped. Only the order of an answer's rows shows it.
#[derive(Clone, Copy, Debug, PartialEq, Eq)]
pub struct GroupOptions {
    /// By as many workers as the pool has.
    pub multithreaded: bool,
    /// In the order of first rows, and not as the path to the groups leaves them.
    pub sorted: bool,
}
