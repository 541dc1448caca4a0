//! What the variant of a series tells of its type.

ghost use Rattle.std.specs.Prelude.{◌↔◌, IsTrue};

use crate::series::Series;

impl Series {
    ghost use Rattle.gb_flat_series.specs.FlatSeries.{IsFlat};
    ghost use Rattle.gb_series.specs.Series.{value_of};
    ghost use Rattle.gb_series.specs.Variant.{IsOfVariant};

    /// The type tells the variant: what is called tells the column's type.
    #[tactic(auto, using(crate::proofs::TypeLemmas::flat_variant))]
    pub fn tell_variant(&self)
        ensures { IsOfVariant self.now }
    {
        match self {
            Series::Flat(column) => column.tell_flat(),
            Series::List(column) => column.tell_type(),
            Series::Array(column) => column.tell_type(),
            Series::Struct(column) => column.tell_type(),
        }
    }

    /// Whether its slots have an order: its type holds no others.
    #[tactic(auto, using(crate::proofs::TypeLemmas::flat_or_not))]
    pub fn has_order(&self) -> bool
        ensures { IsTrue result ↔ IsFlat (value_of self.now).dtype }
    {
        self.tell_variant();
        match self {
            Series::Flat(_) => true,
            Series::List(_) => false,
            Series::Array(_) => false,
            Series::Struct(_) => false,
        }
    }
}
