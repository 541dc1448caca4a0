//! Series of flat columns.

ghost use Rattle.std.specs.Prelude.{◌≡◌};
ghost use Rattle.gb_defs.specs.Column.{ColumnValue};

use crate::series::Series;
use gb_cols::binary::{BinaryChunked, BinaryOffsetChunked};
use gb_cols::boolean::BooleanChunked;
use gb_cols::chunked::StringChunked;
use gb_cols::null::NullChunked;
use gb_cols::primitive::{
    Int8Chunked, Int16Chunked, Int32Chunked, Int64Chunked, Int128Chunked, UInt8Chunked,
    UInt16Chunked, UInt32Chunked, UInt64Chunked,
};
use gb_flat_series::series::FlatSeries;
use gb_logical::categorical::CategoricalChunked;
use gb_logical::logical::{
    DateChunked, DatetimeChunked, DecimalChunked, DurationChunked, TimeChunked,
};

/// What makes a series without memory: each flat column.
pub trait IntoSeries {
    ghost use Rattle.gb_series.specs.Series.{value_of};

    // The column. (A supertrait would give it, but the checker takes none at columns of texts.)
    ghost column: { Self → ColumnValue };

    fn into_series(self) -> Series
        ensures { value_of result ≡ column self };
}

impl IntoSeries for FlatSeries {
    ghost use Rattle.gb_flat_series.specs.FlatSeries.{column_of};

    ghost column = { column_of };

    fn into_series(self) -> Series {
        Series::Flat(self)
    }
}

impl IntoSeries for NullChunked {
    ghost column = { λ c. c };

    fn into_series(self) -> Series {
        Series::Flat(FlatSeries::Null(self))
    }
}

impl IntoSeries for UInt8Chunked {
    ghost column = { λ c. c };

    fn into_series(self) -> Series {
        Series::Flat(FlatSeries::UInt8(self))
    }
}

impl IntoSeries for UInt16Chunked {
    ghost column = { λ c. c };

    fn into_series(self) -> Series {
        Series::Flat(FlatSeries::UInt16(self))
    }
}

impl IntoSeries for UInt32Chunked {
    ghost column = { λ c. c };

    fn into_series(self) -> Series {
        Series::Flat(FlatSeries::UInt32(self))
    }
}

impl IntoSeries for UInt64Chunked {
    ghost column = { λ c. c };

    fn into_series(self) -> Series {
        Series::Flat(FlatSeries::UInt64(self))
    }
}

impl IntoSeries for Int8Chunked {
    ghost column = { λ c. c };

    fn into_series(self) -> Series {
        Series::Flat(FlatSeries::Int8(self))
    }
}

impl IntoSeries for Int16Chunked {
    ghost column = { λ c. c };

    fn into_series(self) -> Series {
        Series::Flat(FlatSeries::Int16(self))
    }
}

impl IntoSeries for Int32Chunked {
    ghost column = { λ c. c };

    fn into_series(self) -> Series {
        Series::Flat(FlatSeries::Int32(self))
    }
}

impl IntoSeries for Int64Chunked {
    ghost column = { λ c. c };

    fn into_series(self) -> Series {
        Series::Flat(FlatSeries::Int64(self))
    }
}

impl IntoSeries for Int128Chunked {
    ghost column = { λ c. c };

    fn into_series(self) -> Series {
        Series::Flat(FlatSeries::Int128(self))
    }
}

impl IntoSeries for DecimalChunked {
    ghost column = { λ c. c };

    fn into_series(self) -> Series {
        Series::Flat(FlatSeries::Decimal(self))
    }
}

impl IntoSeries for DateChunked {
    ghost column = { λ c. c };

    fn into_series(self) -> Series {
        Series::Flat(FlatSeries::Date(self))
    }
}

impl IntoSeries for DatetimeChunked {
    ghost column = { λ c. c };

    fn into_series(self) -> Series {
        Series::Flat(FlatSeries::Datetime(self))
    }
}

impl IntoSeries for DurationChunked {
    ghost column = { λ c. c };

    fn into_series(self) -> Series {
        Series::Flat(FlatSeries::Duration(self))
    }
}

impl IntoSeries for TimeChunked {
    ghost column = { λ c. c };

    fn into_series(self) -> Series {
        Series::Flat(FlatSeries::Time(self))
    }
}

impl IntoSeries for BooleanChunked {
    ghost column = { λ c. c };

    fn into_series(self) -> Series {
        Series::Flat(FlatSeries::Boolean(self))
    }
}

impl IntoSeries for StringChunked {
    ghost column = { λ c. c };

    fn into_series(self) -> Series {
        Series::Flat(FlatSeries::String(self))
    }
}

impl IntoSeries for BinaryChunked {
    ghost column = { λ c. c };

    fn into_series(self) -> Series {
        Series::Flat(FlatSeries::Binary(self))
    }
}

impl IntoSeries for BinaryOffsetChunked {
    ghost column = { λ c. c };

    fn into_series(self) -> Series {
        Series::Flat(FlatSeries::BinaryOffset(self))
    }
}

impl IntoSeries for CategoricalChunked {
    ghost column = { λ c. c };

    fn into_series(self) -> Series {
        Series::Flat(FlatSeries::Categorical(self))
    }
}
