//! Groups of rows that are found with no hash: by runs of rows that hold one key, where equal keys are known
//! to stand together.
#![tactic(auto)]

pub mod codes;
pub mod perfect;
pub mod runs;
