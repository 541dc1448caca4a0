//! Tests of the bytes of rows and of the hashes of rows. They are a crate of their own, since a crate with
//! tests is proved once more with them.
#![tactic(auto)]

#[cfg(test)]
mod hashes;
#[cfg(test)]
mod rows;
