//! Tests of aggregates. They are a crate of their own, since the gate proves a crate with tests twice.
#![tactic(auto)]

#[cfg(test)]
mod folds;
#[cfg(test)]
mod methods;
#[cfg(test)]
mod series_agg;
