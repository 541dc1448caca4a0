//! Tests of columns of lists, arrays and structs. They are a crate of their own, so that they are proved
//! beside the tests of series.
#![tactic(auto)]

#[cfg(test)]
mod calls;
#[cfg(test)]
mod columns;
#[cfg(test)]
mod keys;
#[cfg(test)]
mod makers;
