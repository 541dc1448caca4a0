//! Tests of series, frames and comparers. They are a crate of their own, since the gate proves a crate with
//! tests twice, and a large crate of tests is proved by one processor alone.
#![tactic(auto)]

#[cfg(test)]
mod compare;
#[cfg(test)]
mod frames;
#[cfg(test)]
mod series;
