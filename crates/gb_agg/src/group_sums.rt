//! The sums of a column over the rows of each group, by what its values are.

ghost use Rattle.std.specs.Prelude.{◌≡◌, length, option_map, IfOk, IfErr};
ghost use Rattle.gb_defs.specs.Column.{ColumnValue};
ghost use Rattle.gb_defs.specs.Groups.{lists_in};
ghost use Rattle.gb_base.specs.PlSmallStr.{IsNoMemory, name_of};
ghost use Rattle.gb_agg.specs.Folds.{sums_of_column};

use crate::fold_groups::FoldGroups;
use gb_base::error::PolarsResult;
use gb_base::small_str::PlSmallStr;
use gb_cols::binary::{BinaryChunked, BinaryOffsetChunked};
use gb_cols::boolean::BooleanChunked;
use gb_cols::chunked::{ChunkedArray, StringChunked};
use gb_cols::null::NullChunked;
use gb_cols::primitive::UInt32Chunked;
use gb_cols::series_trait::SeriesTrait;
use gb_logical::categorical::CategoricalChunked;
use gb_logical::logical::{Logical, LogicalKind};
use gb_numbers::numeric::PolarsNumericType;
use gb_values::primitive::NumberValues;

/// A column that may have sums over groups.
pub trait GroupSums {
    /// A column of sums.
    type Sums: SeriesTrait;

    // The column.
    ghost column: { Self → ColumnValue };

    /// The sum over the rows of each group, None where the column's type has no sums.
    fn group_sums<G: FoldGroups>(
        &self,
        name: PlSmallStr,
        groups: &G,
    ) -> PolarsResult<Option<Self::Sums>>
        requires { G.suits groups.now (length (column self.now).slots) }
        ensures ok { let lists = lists_in (G.grouping groups.now) in
            IfOk result (λ sums. option_map Self.Sums.value sums
            ≡ sums_of_column (name_of name) (column self.now) lists) }
        ensures err { IfErr result IsNoMemory };
}

impl<T: PolarsNumericType> GroupSums for ChunkedArray<NumberValues<T>> {
    type Sums = ChunkedArray<NumberValues<T>>;

    ghost column = { λ c. c };

    fn group_sums<G: FoldGroups>(
        &self,
        name: PlSmallStr,
        groups: &G,
    ) -> PolarsResult<Option<Self>> {
        Ok(Some(groups.number_sums(name, self)?))
    }
}

// How many flags are true is a number of 32 bits.
impl GroupSums for BooleanChunked {
    type Sums = UInt32Chunked;

    ghost column = { λ c. c };

    fn group_sums<G: FoldGroups>(
        &self,
        name: PlSmallStr,
        groups: &G,
    ) -> PolarsResult<Option<UInt32Chunked>> {
        Ok(Some(groups.flag_sums(name, self)?))
    }
}

impl<K: LogicalKind> GroupSums for Logical<K> {
    type Sums = Logical<K>;

    ghost column = { λ c. c };

    fn group_sums<G: FoldGroups>(
        &self,
        name: PlSmallStr,
        groups: &G,
    ) -> PolarsResult<Option<Self>> {
        let kind = self.kind();
        if !kind.has_sum() {
            return Ok(None);
        }
        let sums = groups.number_sums(name, self.physical())?;
        Ok(Some(Logical::with_kind(sums, kind)))
    }
}

impl GroupSums for NullChunked {
    type Sums = NullChunked;

    ghost column = { λ c. c };

    fn group_sums<G: FoldGroups>(
        &self,
        _name: PlSmallStr,
        _groups: &G,
    ) -> PolarsResult<Option<Self>> {
        // The call tells the column's type.
        let _ = self.allocator();
        Ok(None)
    }
}

impl GroupSums for StringChunked {
    type Sums = StringChunked;

    ghost column = { λ c. c };

    fn group_sums<G: FoldGroups>(
        &self,
        _name: PlSmallStr,
        _groups: &G,
    ) -> PolarsResult<Option<Self>> {
        let _ = self.allocator();
        Ok(None)
    }
}

impl GroupSums for BinaryChunked {
    type Sums = BinaryChunked;

    ghost column = { λ c. c };

    fn group_sums<G: FoldGroups>(
        &self,
        _name: PlSmallStr,
        _groups: &G,
    ) -> PolarsResult<Option<Self>> {
        let _ = self.allocator();
        Ok(None)
    }
}

impl GroupSums for BinaryOffsetChunked {
    type Sums = BinaryOffsetChunked;

    ghost column = { λ c. c };

    fn group_sums<G: FoldGroups>(
        &self,
        _name: PlSmallStr,
        _groups: &G,
    ) -> PolarsResult<Option<Self>> {
        let _ = self.allocator();
        Ok(None)
    }
}

impl GroupSums for CategoricalChunked {
    type Sums = CategoricalChunked;

    ghost column = { λ c. c };

    fn group_sums<G: FoldGroups>(
        &self,
        _name: PlSmallStr,
        _groups: &G,
    ) -> PolarsResult<Option<Self>> {
        let _ = self.get_rev_map();
        Ok(None)
    }
}
