//! Groups of rows: in order, each its first row with the list of its rows. A pair, an item and a group
//! are one thing: an item holds it, and contracts see it as a pair. Nothing here says how the rows were
//! grouped.
#![tactic(auto)]

mod by_workers;
mod fits;
pub mod groups_idx;
pub mod groups_slice;
pub mod groups_type;
mod items;
pub mod iter;
pub mod order;
pub mod positions;
mod row_buckets;
pub mod row_lists;
mod same;
pub mod view;
