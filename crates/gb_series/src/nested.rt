//! Columns that hold columns. A contract sees each as its name, its type, its slots and its chunk lengths,
//! as every column.

pub mod array;
mod fields;
pub mod list;
pub mod rows;
pub mod structs;
mod text;
