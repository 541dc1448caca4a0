//! What stands for rows with nulls.

/// What stands for a row in which some key has a null.
#[derive(Clone, Copy)]
pub(crate) enum RowNulls {
    /// Its bytes.
    Encoded,
    /// A null.
    Broadcast,
}
