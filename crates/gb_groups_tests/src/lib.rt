//! Tests of hashes, of work by shares and of the grouping paths. They are a crate of their own, since the
//! gate proves a crate with tests twice.
#![tactic(auto)]

#[cfg(test)]
mod flat;
#[cfg(test)]
mod hash;
#[cfg(test)]
mod key_rows;
#[cfg(test)]
mod orders;
#[cfg(test)]
mod paths;
