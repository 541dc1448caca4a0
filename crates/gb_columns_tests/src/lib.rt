//! Tests of the crates of columns. They are a crate of their own, since the gate proves a crate with tests
//! twice.
#![tactic(auto)]

#[cfg(test)]
mod base;
#[cfg(test)]
mod categorical;
#[cfg(test)]
mod columns;
#[cfg(test)]
mod logical;
#[cfg(test)]
mod orders;
#[cfg(test)]
mod slices;
#[cfg(test)]
mod values;
