//! Tests of runs over many rows. They are a crate of their own, since the gate proves a crate with tests twice.
#![tactic(auto)]

#[cfg(test)]
mod explained;
#[cfg(test)]
mod group_agg;
#[cfg(test)]
mod group_by;
#[cfg(test)]
mod many_rows;
#[cfg(test)]
mod methods;
#[cfg(test)]
mod nested_text;
#[cfg(test)]
mod several_keys;
