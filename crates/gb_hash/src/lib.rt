//! Hashes of whole numbers and texts, and what is done with a hash. A hash follows from the bits, the
//! seed and the mixing function of a mixer, so that equal values hash alike in every run. A hash is
//! joined with another, or picks one of several partitions. The rows of a column have keys and hashes,
//! and to read a key is one step, which is counted.
#![tactic(auto)]

pub mod byte_rows;
pub mod combine;
pub mod dirty_hash;
pub mod id_hasher;
pub mod key_rows;
pub mod list_rows;
pub mod num_rows;
pub mod row_mixer;
pub mod short_rows;
pub mod slice_rows;
