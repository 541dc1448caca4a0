//! Each kind of column: what it reads, prints, takes and has as keys.

use gb_base::data_type::{DataType, IsSorted, TimeUnit};
use gb_base::error::PolarsResult;
use gb_base::small_str::PlSmallStr;
use gb_cols::primitive::{Int32Chunked, Int64Chunked, Int128Chunked};
use gb_cols::series_trait::SeriesTrait;
use gb_logical::logical::{
    DateChunked, DatetimeChunked, DecimalChunked, DurationChunked, Logical, LogicalKind,
    TimeChunked,
};
use std::alloc::Global;
use std::test::Fail;

fn name_of(alloc: Global) -> PolarsResult<PlSmallStr> {
    PlSmallStr::from_str(alloc, "m")
}

// Puts a cell at the end of a short column.
fn push_short<K: LogicalKind>(column: &mut Logical<K>, cell: &str) -> PolarsResult<bool> {
    // The kind tells that cells read.
    let _ = column.kind();
    if column.len() > 9 {
        return Ok(false);
    }
    Ok(column.push_cell(cell.as_bytes(), true, "-")?)
}

// Prints each slot, and a stroke behind it.
fn print<K: LogicalKind>(column: &Logical<K>, to: &mut Vec<u8>) -> PolarsResult<()> {
    for row in 0..column.len() {
        column.write_cell(row, "null", to)?;
        to.push(b'|')?;
    }
    Ok(())
}

// The cells that do not read, each behind a question mark; then the column with the others, printed, and
// its second and first slot.
fn shown<K: LogicalKind>(column: &mut Logical<K>, cells: &[&str]) -> PolarsResult<Vec<u8>> {
    let mut text = Vec::new(column.allocator());
    for cell in cells {
        if !push_short(column, cell)? {
            text.push(b'?')?;
            text.extend_from_slice(cell.as_bytes())?;
        }
    }
    text.push(b' ')?;
    print(column, &mut text)?;
    if column.len() > 1 {
        text.push(b' ')?;
        print(&column.take(&[1, 0])?, &mut text)?;
    }
    Ok(text)
}

#[test]
fn dates(rt: HostRuntime) -> Result<(), Fail> {
    let alloc = rt.alloc();
    let days = Int32Chunked::from_slice(alloc, name_of(alloc)?, &[3])?;
    let cells = [
        "2147483647",
        "2147483648",
        "-2147483648",
        "-2147483649",
        "-",
        "+7",
        "x",
    ];
    let mut column = DateChunked::new(days);
    let text = shown(&mut column, &cells)?;
    let want = b"?2147483648?-2147483649?x 3|2147483647|-2147483648|null|7| 2147483647|3|";
    assert_eq!(rt; text.as_slice(), want.as_slice());
    assert_eq!(rt; column.dtype()?, DataType::Date);
    Ok(())
}

// Whether a column reads the null word and a cell, and another cell not.
fn reads_but<K: LogicalKind>(column: &Logical<K>, cell: &str, other: &str) -> bool {
    // The kind tells that cells read.
    let _ = column.kind();
    column.reads_cell(b"-", true, "-")
        && column.reads_cell(cell.as_bytes(), true, "-")
        && !column.reads_cell(other.as_bytes(), true, "-")
}

#[test]
fn cells_that_read(rt: HostRuntime) -> Result<(), Fail> {
    let alloc = rt.alloc();
    let dates = DateChunked::new(Int32Chunked::new(alloc, name_of(alloc)?));
    assert!(rt; reads_but(&dates, "-2147483648", "2147483648"));
    let decimals = DecimalChunked::new(Int128Chunked::new(alloc, name_of(alloc)?), None, 2);
    assert!(rt; reads_but(&decimals, "7.25", "0.125"));
    Ok(())
}

// Both ends of 64 bits, one past, a sign and a null.
const CELLS: [&str; 5] = [
    "9223372036854775807",
    "9223372036854775808",
    "-9223372036854775808",
    "-",
    "+7",
];

const TEXT: &[u8] =
    b"?9223372036854775808 3|9223372036854775807|-9223372036854775808|null|7| 9223372036854775807|3|";

#[test]
fn times(rt: HostRuntime) -> Result<(), Fail> {
    let alloc = rt.alloc();
    let numbers = Int64Chunked::from_slice(alloc, name_of(alloc)?, &[3])?;
    let mut column = TimeChunked::new(numbers);
    let text = shown(&mut column, &CELLS)?;
    assert_eq!(rt; text.as_slice(), TEXT);
    assert_eq!(rt; column.dtype()?, DataType::Time);
    Ok(())
}

#[test]
fn points_in_time(rt: HostRuntime) -> Result<(), Fail> {
    let alloc = rt.alloc();
    let numbers = Int64Chunked::from_slice(alloc, name_of(alloc)?, &[3])?;
    let unit = TimeUnit::Milliseconds;
    let mut column = DatetimeChunked::new(numbers, unit);
    let text = shown(&mut column, &CELLS)?;
    assert_eq!(rt; text.as_slice(), TEXT);
    assert_eq!(rt; column.dtype()?, DataType::Datetime(unit));
    Ok(())
}

#[test]
fn spans(rt: HostRuntime) -> Result<(), Fail> {
    let alloc = rt.alloc();
    let numbers = Int64Chunked::from_slice(alloc, name_of(alloc)?, &[3])?;
    let unit = TimeUnit::Microseconds;
    let mut column = DurationChunked::new(numbers, unit);
    let text = shown(&mut column, &CELLS)?;
    assert_eq!(rt; text.as_slice(), TEXT);
    assert_eq!(rt; column.dtype()?, DataType::Duration(unit));
    Ok(())
}

#[test]
fn decimals(rt: HostRuntime) -> Result<(), Fail> {
    let alloc = rt.alloc();
    let numbers = Int128Chunked::from_slice(alloc, name_of(alloc)?, &[-7])?;
    let cells = [
        "1701411834604692317316873037158841057.27",
        "1701411834604692317316873037158841057.28",
        "-1701411834604692317316873037158841057.28",
        "-",
        "+7.5",
        "0.125",
    ];
    let mut column = DecimalChunked::new(numbers, Some(3), 2);
    let text = shown(&mut column, &cells)?;
    let want =
        b"?1701411834604692317316873037158841057.28?0.125 -0.07|1701411834604692317316873037158841057.27|-1701411834604692317316873037158841057.28|null|7.50| 1701411834604692317316873037158841057.27|-0.07|";
    assert_eq!(rt; text.as_slice(), want.as_slice());
    assert_eq!(rt; column.dtype()?, DataType::Decimal(Some(3), Some(2)));
    Ok(())
}

// A column of one number and one null.
fn longs(alloc: Global) -> PolarsResult<Int64Chunked> {
    Int64Chunked::from_slice_options(alloc, name_of(alloc)?, &[Some(-1), None])
}

#[test]
fn keys(rt: HostRuntime) -> Result<(), Fail> {
    let alloc = rt.alloc();
    let words = [Some(u64::MAX), None];
    let spans = DurationChunked::new(longs(alloc)?, TimeUnit::Nanoseconds);
    assert_eq!(rt; spans.words()?.as_slice(), words.as_slice());
    let numbers = Int128Chunked::from_slice(alloc, name_of(alloc)?, &[-1, 1 << 64])?;
    let wide = [Some(u128::MAX), Some(1 << 64)];
    let decimals = DecimalChunked::new(numbers, None, 2);
    assert_eq!(rt; decimals.wide_words()?.as_slice(), wide.as_slice());
    Ok(())
}

#[test]
fn the_physical_column(rt: HostRuntime) -> Result<(), Fail> {
    let alloc = rt.alloc();
    let mut spans = DurationChunked::new(longs(alloc)?, TimeUnit::Nanoseconds);
    if spans.len() < 9 {
        spans.push_null()?;
    }
    spans.rename(PlSmallStr::from_str(alloc, "s")?);
    assert_eq!(rt; spans.name().as_str(), "s");
    assert_eq!(rt; spans.null_count(), 2);
    assert!(rt; !spans.is_empty() && spans.is_valid(0) && !spans.is_valid(1));
    assert_eq!(rt; spans.is_sorted_flag(), IsSorted::Not);
    assert_eq!(rt; spans.get(0), Some(-1));
    assert_eq!(rt; spans.physical().get(0), Some(-1));
    let again = Logical::with_kind(longs(alloc)?, spans.kind());
    assert_eq!(rt; again.dtype()?, DataType::Duration(TimeUnit::Nanoseconds));
    Ok(())
}
