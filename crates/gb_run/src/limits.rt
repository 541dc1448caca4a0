//! What a run is given beside its words and devices.

/// What a run may take, and the salt of its hashes.
#[derive(Clone, Copy, Debug, PartialEq, Eq)]
pub struct Limits {
    /// The longest input, in bytes.
    pub input_bytes: u64,
    /// What nobody knows who wrote the table: without it keys can be chosen that share their hashes, and such a
    /// table takes the square of its rows in steps. No answer depends on it.
    pub salt: u64,
}
