//! The definitions that every contract of the repository cites: slots, types, columns, classes,
//! folds, answers, faults, the table text and the words of a request. They are plain data and
//! functions of plain data in `specs/`; nothing there is the loop of a body elsewhere. `slow` is a
//! plain program that the definitions describe; the other modules say what they give on worked rows.
#![tactic(auto)]

pub mod causes;
pub mod cells;
pub mod hashes;
pub mod orders;
pub mod paths;
pub mod ranges;
pub mod row_bytes;
pub mod slices;
pub mod slow;
pub mod worked;
