//! Whether two columns have one type.

ghost use Rattle.std.specs.Prelude.{◌≡◌, ◌↔◌, IsTrue};
ghost use Rattle.gb_base.specs.DataType.{unit_of};
ghost use Rattle.gb_flat_series.specs.Variant.{variant_of};

use crate::series::FlatSeries;
use gb_base::data_type::TimeUnit;
use gb_base::rev_mapping::RevMapping;
use gb_logical::categorical::CategoricalChunked;
use gb_logical::logical::DecimalKind;

impl FlatSeries {
    ghost use Rattle.gb_flat_series.specs.FlatSeries.{column_of};

    /// Whether two columns have one type. It takes no memory.
    #[tactic(auto, using(crate::proofs::TypeLemmas::plain_same))]
    pub fn has_type_of(&self, other: &FlatSeries) -> bool
        ensures { IsTrue result ↔ ((column_of self.now).dtype ≡ (column_of other.now).dtype) }
    {
        self.tell_variant();
        other.tell_variant();
        match self {
            FlatSeries::Decimal(a) => match other {
                FlatSeries::Decimal(b) => same_decimals(a.kind(), b.kind()),
                _ => false,
            },
            FlatSeries::Datetime(a) => match other {
                FlatSeries::Datetime(b) => same_unit(a.kind().unit, b.kind().unit),
                _ => false,
            },
            FlatSeries::Duration(a) => match other {
                FlatSeries::Duration(b) => same_unit(a.kind().unit, b.kind().unit),
                _ => false,
            },
            FlatSeries::Categorical(a) => match other {
                FlatSeries::Categorical(b) => same_categories(a, b),
                _ => false,
            },
            _ => variant_number(self) == variant_number(other),
        }
    }
}

// Which variant a series is.
fn variant_number(series: &FlatSeries) -> u8
    ensures { result ≡ variant_of series.now }
{
    match series {
        FlatSeries::Null(_) => 0,
        FlatSeries::Boolean(_) => 1,
        FlatSeries::UInt8(_) => 2,
        FlatSeries::UInt16(_) => 3,
        FlatSeries::UInt32(_) => 4,
        FlatSeries::UInt64(_) => 5,
        FlatSeries::Int8(_) => 6,
        FlatSeries::Int16(_) => 7,
        FlatSeries::Int32(_) => 8,
        FlatSeries::Int64(_) => 9,
        FlatSeries::Int128(_) => 10,
        FlatSeries::Decimal(_) => 11,
        FlatSeries::Date(_) => 12,
        FlatSeries::Datetime(_) => 13,
        FlatSeries::Duration(_) => 14,
        FlatSeries::Time(_) => 15,
        FlatSeries::String(_) => 16,
        FlatSeries::Binary(_) => 17,
        FlatSeries::BinaryOffset(_) => 18,
        FlatSeries::Categorical(_) => 19,
    }
}

// Whether decimals have one precision and one scale.
fn same_decimals(a: DecimalKind, b: DecimalKind) -> bool
    ensures { IsTrue result ↔ ((a.precision ≡ b.precision) × (a.scale ≡ b.scale)) }
{
    a.precision == b.precision && a.scale == b.scale
}

// Whether times are counted in one unit.
#[tactic(auto, using(crate::proofs::TypeLemmas::unit_same))]
fn same_unit(a: TimeUnit, b: TimeUnit) -> bool
    ensures { IsTrue result ↔ (unit_of a ≡ unit_of b) }
{
    a == b
}

// Whether categories have the same texts, and are of one order and one kind.
#[tactic(auto, using(crate::proofs::TypeLemmas::categories_same))]
fn same_categories(a: &CategoricalChunked, b: &CategoricalChunked) -> bool
    ensures { IsTrue result ↔ (a.now.dtype ≡ b.now.dtype) }
{
    a.is_enum() == b.is_enum()
        && a.uses_lexical_ordering() == b.uses_lexical_ordering()
        && same_texts(a.get_rev_map(), b.get_rev_map())
}

// Whether categories have the same texts in the same order.
fn same_texts(a: &RevMapping, b: &RevMapping) -> bool
    ensures { IsTrue result ↔ (a.now ≡ b.now) }
{
    *a == *b
}
