//! Hashes of the slots of columns and of the rows of several columns. A column's hashes are taken in one
//! pass, or put to those of the columns before it in their place, so that no column is copied. Equal rows
//! of columns of the same types hash alike.
#![tactic(auto)]

pub mod byte_hash;
pub mod column_hash;
pub mod frames_hash;
pub mod hash_values;
pub mod logical_hash;
pub mod series_hash;
pub mod vec_hash;
