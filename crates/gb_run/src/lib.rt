//! A run of the program, from its words and its input to its status: it reads a typed CSV table, groups it
//! and writes the grouped table. `run` is its top call, and carries the theorem of what the program does.
#![tactic(auto)]

pub mod limits;
mod report;
pub mod run;
mod words;
