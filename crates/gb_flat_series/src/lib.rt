//! A column of any flat type.
#![tactic(auto)]

mod of_type;
mod same_type;
pub mod series;
mod undo;
mod value;
mod variant;
