//! A column of any type, lists, arrays and structs among them, and frames of columns: what contracts see of a
//! frame is the list of its columns.
#![tactic(auto)]

mod append;
pub mod flatten;
pub mod frame;
pub mod into_series;
pub mod nested;
mod of_type;
mod same_type;
pub mod series;
mod value;
mod variant;
