//! What is asked of a grouping.

use gb_agg::method::GroupByMethod;
use gb_base::small_str::PlSmallStr;

/// A method and the column that it is asked of. The row lists are asked of none, and the name is empty.
#[derive(Drop)]
pub struct Agg {
    pub column: PlSmallStr,
    pub method: GroupByMethod,
}
