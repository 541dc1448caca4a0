//! What every crate above stands on: errors, names, the types of columns and the texts of categories, and
//! how much work is done side by side. Beside them the outside of the program: where bytes come from and go
//! to, and the gate that pieces of work pass.
#![tactic(auto)]

pub mod any_value;
pub mod byte_str;
pub mod data_type;
pub mod device;
pub mod error;
pub mod field;
pub mod memory;
pub mod name_set;
pub mod nullable_idx;
pub mod pool;
pub mod rev_mapping;
pub mod scalar;
pub mod small_str;
pub mod standard;
