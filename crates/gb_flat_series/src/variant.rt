//! What the variant of a column tells of its type.

use crate::series::FlatSeries;
use gb_cols::series_trait::SeriesTrait;

impl FlatSeries {
    ghost use Rattle.gb_flat_series.specs.FlatSeries.{IsFlat, column_of};
    ghost use Rattle.gb_flat_series.specs.Variant.{IsOfVariant};

    /// The type tells the variant: what is called tells the column's type.
    pub fn tell_variant(&self)
        ensures { IsOfVariant self.now }
    {
        match self {
            FlatSeries::Null(column) => {
                let _ = column.allocator();
            }
            FlatSeries::Boolean(column) => {
                let _ = column.name();
            }
            FlatSeries::UInt8(column) => {
                let _ = column.name();
            }
            FlatSeries::UInt16(column) => {
                let _ = column.name();
            }
            FlatSeries::UInt32(column) => {
                let _ = column.name();
            }
            FlatSeries::UInt64(column) => {
                let _ = column.name();
            }
            FlatSeries::Int8(column) => {
                let _ = column.name();
            }
            FlatSeries::Int16(column) => {
                let _ = column.name();
            }
            FlatSeries::Int32(column) => {
                let _ = column.name();
            }
            FlatSeries::Int64(column) => {
                let _ = column.name();
            }
            FlatSeries::Int128(column) => {
                let _ = column.name();
            }
            FlatSeries::Decimal(column) => {
                let _ = column.kind();
            }
            FlatSeries::Date(column) => {
                let _ = column.kind();
            }
            FlatSeries::Datetime(column) => {
                let _ = column.kind();
            }
            FlatSeries::Duration(column) => {
                let _ = column.kind();
            }
            FlatSeries::Time(column) => {
                let _ = column.kind();
            }
            FlatSeries::String(column) => {
                let _ = column.name();
            }
            FlatSeries::Binary(column) => {
                let _ = column.name();
            }
            FlatSeries::BinaryOffset(column) => {
                let _ = column.name();
            }
            FlatSeries::Categorical(column) => {
                let _ = column.get_rev_map();
            }
        }
    }

    /// That its type holds no others.
    #[tactic(auto, using(crate::proofs::TypeLemmas::flat_by))]
    pub fn tell_flat(&self)
        ensures { IsFlat (column_of self.now).dtype }
    {
        self.tell_variant();
    }
}
