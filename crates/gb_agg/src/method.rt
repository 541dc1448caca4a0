//! What is made of the slots of a column at the rows of a group, and what the answer is named.

ghost use Rattle.std.specs.Prelude.{◌≡◌, IfErr, IfOk};
ghost use Rattle.gb_base.specs.PlSmallStr.{IsNoMemory, name_of};
ghost use Rattle.gb_defs.specs.Answer.{answer_name};
ghost use Rattle.gb_agg.specs.Method.{method_of};

use gb_base::error::PolarsResult;
use gb_base::small_str::PlSmallStr;
use std::alloc::Global;
use std::fmt;

/// What is made of the slots of a column at the rows of a group.
#[derive(Clone, Copy, Debug, PartialEq, Eq)]
pub enum GroupByMethod {
    /// The least valid slot.
    Min,
    /// The greatest valid slot.
    Max,
    /// The slot at the first row.
    First,
    /// The slot at the last row.
    Last,
    /// The valid slots added, wrapping in the column's type.
    Sum,
    /// The rows, as a list.
    Groups,
    /// How many slots differ, null as one of them.
    NUnique,
    /// The number of rows, or of valid slots.
    Count { include_nulls: bool },
    /// The slots, as a list.
    Implode,
}

impl GroupByMethod {
    ghost use Rattle.std.specs.Prelude.{not};
    ghost use Rattle.gb_defs.specs.Fault.{is_groups};
    ghost use Rattle.gb_agg.specs.Method.{goes_by_numbers};

    /// Whether it is made of a column's slots. The rows are those of the groups.
    pub fn needs_column(&self) -> bool
        ensures { result ≡ not (is_groups (method_of self.now)) }
    {
        !matches!(self, GroupByMethod::Groups)
    }

    /// Whether it can be made from the number of each row's group, with no list of a group's rows.
    pub fn goes_by_numbers(&self) -> bool
        ensures { result ≡ goes_by_numbers self.now }
    {
        !matches!(
            self,
            GroupByMethod::Groups | GroupByMethod::NUnique | GroupByMethod::Implode
        )
    }
}

impl fmt::Display for GroupByMethod {
    ghost use Rattle.std.specs.Prelude.{Some};
    ghost use Rattle.gb_agg.specs.Method.{method_word};

    ghost output = { λ method. Some (method_word method) };

    fn fmt<W: fmt::Write>(&self, f: &mut fmt::Formatter<W>) -> fmt::Result {
        match self {
            GroupByMethod::Min => write!(f, "min"),
            GroupByMethod::Max => write!(f, "max"),
            GroupByMethod::First => write!(f, "first"),
            GroupByMethod::Last => write!(f, "last"),
            GroupByMethod::Sum => write!(f, "sum"),
            GroupByMethod::Groups => write!(f, "groups"),
            GroupByMethod::NUnique => write!(f, "n_unique"),
            GroupByMethod::Count { include_nulls: _ } => write!(f, "count"),
            GroupByMethod::Implode => write!(f, "list"),
        }
    }
}

/// The name of the column of an aggregate: that of the aggregated column with the method behind it, but of the
/// row lists `groups` alone.
pub fn fmt_group_by_column(
    alloc: Global,
    name: &str,
    method: GroupByMethod,
) -> PolarsResult<PlSmallStr>
    ensures ok { IfOk result (λ named. name_of named ≡ answer_name name.now (method_of method)) }
    ensures err { IfErr result IsNoMemory }
{
    let suffix = match method {
        GroupByMethod::Min => "_min",
        GroupByMethod::Max => "_max",
        GroupByMethod::First => "_first",
        GroupByMethod::Last => "_last",
        GroupByMethod::Sum => "_sum",
        GroupByMethod::Groups => return PlSmallStr::from_str(alloc, "groups"),
        GroupByMethod::NUnique => "_n_unique",
        GroupByMethod::Count { include_nulls: _ } => "_count",
        GroupByMethod::Implode => "_agg_list",
    };
    let mut named = String::from_str(alloc, name)?;
    named.push_str(suffix)?;
    PlSmallStr::from_str(alloc, named.as_str())
}
