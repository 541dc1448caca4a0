//! A frame of five days and their temperatures: its columns, rows and chunks, and what is put behind it.
//! A function owns one series at most, as in the tests of series.

ghost use Rattle.std.specs.Prelude.{◌≡◌, true};
ghost use Rattle.gb_series.specs.Frame.{are_aligned};

use gb_base::data_type::IsSorted;
use gb_base::error::{PolarsError, PolarsResult};
use gb_base::small_str::PlSmallStr;
use gb_cols::chunked::StringChunked;
use gb_cols::primitive::{Int32Chunked, Int64Chunked};
use gb_cols::series_trait::SeriesTrait;
use gb_series::flatten::{flatten_df_iter, flatten_series};
use gb_series::frame::DataFrame;
use gb_series::into_series::IntoSeries;
use gb_series::series::{Column, Series};
use std::alloc::Global;
use std::test::Fail;

const DAYS: [&str; 5] = [
    "2020-08-21",
    "2020-08-21",
    "2020-08-22",
    "2020-08-23",
    "2020-08-22",
];

const TEMPERATURES: [&str; 5] = ["20", "10", "7", "9", "1"];

fn dates(alloc: Global) -> PolarsResult<Series> {
    let mut column = StringChunked::new(alloc, PlSmallStr::from_str(alloc, "date")?);
    for day in &DAYS {
        if column.len() > 9 {
            break;
        }
        column.push(Some(*day))?;
    }
    Ok(column.into_series())
}

fn temperatures(alloc: Global) -> PolarsResult<Series> {
    let name = PlSmallStr::from_str(alloc, "temp")?;
    Ok(Int32Chunked::from_slice(alloc, name, &[20, 10, 7, 9, 1])?.into_series())
}

// Numbers of another type under a name.
fn numbers(alloc: Global, name: &str, values: &[i64]) -> PolarsResult<Series> {
    let name = PlSmallStr::from_str(alloc, name)?;
    Ok(Int64Chunked::from_slice(alloc, name, values)?.into_series())
}

fn frame_with(alloc: Global, column: Series) -> PolarsResult<DataFrame> {
    let mut columns = Vec::with_capacity(alloc, 1)?;
    columns.push(column)?;
    DataFrame::new(columns)
}

fn weather(alloc: Global) -> PolarsResult<DataFrame> {
    let mut columns = Vec::with_capacity(alloc, 2)?;
    columns.push(dates(alloc)?)?;
    columns.push(temperatures(alloc)?)?;
    DataFrame::new(columns)
}

// Whether a test holds of a frame.
fn holds_of<F: Fn(&DataFrame) -> bool>(frame: PolarsResult<DataFrame>, test: F) -> bool
    requires { F.IsAlwaysCallable test }
{
    match frame {
        Ok(frame) => test(&frame),
        Err(_) => false,
    }
}

// Whether the cell of a row has a text.
fn has_cell(column: &Series, row: usize, text: &str) -> bool {
    if row >= column.len() {
        return false;
    }
    let mut cell = Vec::new(column.allocator());
    match column.write_cell(row, "-", &mut cell) {
        Ok(()) => cell.as_slice() == text.as_bytes(),
        Err(_) => false,
    }
}

// Whether a row of the frame is that of one of the days.
fn is_day(frame: &DataFrame, row: usize, day: usize) -> bool {
    match frame.get_columns() {
        [dates, temperatures] => {
            day < 5
                && has_cell(dates, row, DAYS[day])
                && has_cell(temperatures, row, TEMPERATURES[day])
        }
        _ => false,
    }
}

// Whether the rows of the frame are those of these days.
fn has_days(frame: &DataFrame, days: &[usize]) -> bool {
    for (row, day) in days.iter().enumerate() {
        if !is_day(frame, row, *day) {
            return false;
        }
    }
    frame.height() == days.len() && frame.width() == 2 && frame.is_empty() == days.is_empty()
}

// ---- columns

fn is_named(found: PolarsResult<&Column>, name: &str) -> bool {
    match found {
        Ok(column) => column.name().as_str() == name,
        Err(_) => false,
    }
}

fn is_missing(found: PolarsResult<&Column>, name: &str) -> bool {
    match found {
        Err(PolarsError::ColumnNotFound(missing)) => missing.as_str() == name,
        _ => false,
    }
}

fn finds_columns(frame: &DataFrame) -> bool {
    frame.position("temp") == Some(1)
        && frame.position("day").is_none()
        && is_named(frame.column("temp"), "temp")
        && is_missing(frame.column("day"), "day")
}

fn selects(frame: &DataFrame, names: &[PlSmallStr]) -> bool {
    match frame.select_columns(names) {
        Ok(columns) => columns.len() == names.len(),
        Err(_) => false,
    }
}

fn selects_twice(frame: &DataFrame, names: &[PlSmallStr]) -> bool {
    match frame.select_columns(names) {
        Err(PolarsError::Duplicate(name)) => name.as_str() == "temp",
        _ => false,
    }
}

#[test]
fn columns_by_name(rt: HostRuntime) -> Result<(), Fail> {
    let alloc = rt.alloc();
    assert!(rt; holds_of(weather(alloc), finds_columns));
    let one = [PlSmallStr::from_str(alloc, "temp")?];
    assert!(rt; holds_of(weather(alloc), |frame| selects(frame, &one)));
    let two = [
        PlSmallStr::from_str(alloc, "temp")?,
        PlSmallStr::from_str(alloc, "temp")?,
    ];
    assert!(rt; holds_of(weather(alloc), |frame| selects_twice(frame, &two)));
    Ok(())
}

// ---- rows

fn has_parts(frame: &DataFrame) -> bool {
    frame.height() == 5
        && holds_of(frame.take(&[3]), |rows| has_days(rows, &[3]))
        && holds_of(frame.slice(-1, 9), |rows| has_days(rows, &[4]))
        && holds_of(frame.rechunk(), |copy| has_days(copy, &[0, 1, 2, 3, 4]))
        && holds_of(frame.try_clone(), |copy| has_days(copy, &[0, 1, 2, 3, 4]))
}

#[test]
fn rows_of_a_frame(rt: HostRuntime) -> Result<(), Fail> {
    assert!(rt; DataFrame::empty(rt.alloc()).is_empty());
    assert!(rt; holds_of(weather(rt.alloc()), has_parts));
    Ok(())
}

// A frame of the numbers 1, and of others under a name.
fn frame_of(alloc: Global, name: &str, values: &[i64]) -> PolarsResult<DataFrame> {
    let mut columns = Vec::with_capacity(alloc, 2)?;
    columns.push(numbers(alloc, "a", &[1])?)?;
    columns.push(numbers(alloc, name, values)?)?;
    DataFrame::new(columns)
}

fn is_duplicate(made: PolarsResult<DataFrame>, name: &str) -> bool {
    match made {
        Err(PolarsError::Duplicate(found)) => found.as_str() == name,
        _ => false,
    }
}

fn is_mismatch(made: PolarsResult<DataFrame>) -> bool {
    matches!(made, Err(PolarsError::ShapeMismatch))
}

#[test]
fn frames_refused(rt: HostRuntime) -> Result<(), Fail> {
    assert!(rt; is_duplicate(frame_of(rt.alloc(), "a", &[2]), "a"));
    assert!(rt; is_mismatch(frame_of(rt.alloc(), "b", &[2, 3])));
    Ok(())
}

// ---- the chunks of frames

// Puts a copy of a short column's first rows behind it, in one chunk.
fn append_rows(column: &mut Series, count: usize) -> PolarsResult<()> {
    let rows = column.slice(0, count)?;
    if column.len() > 9 || rows.len() > 9 {
        return Ok(());
    }
    column.append(rows)
}

// Puts an empty chunk and the first row again behind a column, and sets its flag.
fn append_chunks(column: &mut Series) -> PolarsResult<()> {
    append_rows(column, 0)?;
    append_rows(column, 1)?;
    if column.check_sorted(IsSorted::Ascending) {
        column.set_sorted_flag(IsSorted::Ascending);
    }
    Ok(())
}

fn in_three_chunks(alloc: Global, name: &str, value: i64) -> PolarsResult<Series> {
    let mut column = numbers(alloc, name, &[value, value])?;
    append_chunks(&mut column)?;
    Ok(column)
}

fn chunked_frame(alloc: Global) -> PolarsResult<DataFrame> {
    let mut columns = Vec::with_capacity(alloc, 2)?;
    columns.push(in_three_chunks(alloc, "a", 7)?)?;
    columns.push(in_three_chunks(alloc, "b", 8)?)?;
    DataFrame::new(columns)
}

fn has_three_parts(column: &Series) -> bool {
    match flatten_series(column) {
        Ok(parts) => parts.len() == 3,
        Err(_) => false,
    }
}

fn is_ascending_in_three(column: PolarsResult<Series>) -> bool {
    match column {
        Ok(column) => column.is_sorted_ascending_flag() && has_three_parts(&column),
        Err(_) => false,
    }
}

fn is_plain_chunk(column: &Series) -> bool {
    column.n_chunks() == 1 && !column.is_sorted_any()
}

// Whether the chunks of a frame that have rows are so high, and each is a frame in one chunk with no flags.
fn has_chunks(frame: &DataFrame, heights: &[usize]) -> bool
    requires { are_aligned frame.now ≡ true }
{
    let Ok(parts) = flatten_df_iter(frame) else {
        return false;
    };
    let mut left = heights;
    for part in parts {
        let Some((height, later)) = left.split_first() else {
            return false;
        };
        let is_next = holds_of(part, |part| {
            part.height() == *height && part.get_columns().iter().all(is_plain_chunk)
        });
        if !is_next {
            return false;
        }
        left = later;
    }
    left.is_empty()
}

// The same of any frame, where its columns are chunked alike.
fn is_cut_into(frame: &DataFrame, heights: &[usize]) -> bool {
    match frame.is_aligned() {
        Ok(aligned) => aligned && has_chunks(frame, heights),
        Err(_) => false,
    }
}

#[test]
fn a_frame_by_chunks(rt: HostRuntime) -> Result<(), Fail> {
    let alloc = rt.alloc();
    assert!(rt; is_ascending_in_three(in_three_chunks(alloc, "a", 7)));
    assert!(rt; holds_of(chunked_frame(alloc), |frame| is_cut_into(frame, &[2, 1])));
    assert!(rt; is_cut_into(&DataFrame::empty(alloc), &[]));
    Ok(())
}

// ---- frames behind frames

// Puts a low frame behind a low frame.
fn append_low(frame: &mut DataFrame, other: DataFrame) -> PolarsResult<()> {
    if frame.height() > 9 || other.height() > 9 {
        return Ok(());
    }
    frame.append_chunk(other)
}

// The days, and another frame behind them.
fn with_behind(alloc: Global, other: PolarsResult<DataFrame>) -> PolarsResult<DataFrame> {
    let mut frame = weather(alloc)?;
    append_low(&mut frame, other?)?;
    Ok(frame)
}

// The days with temperatures of another type.
fn wide_weather(alloc: Global) -> PolarsResult<DataFrame> {
    let mut columns = Vec::with_capacity(alloc, 2)?;
    columns.push(dates(alloc)?)?;
    columns.push(numbers(alloc, "temp", &[20, 10, 7, 9, 1])?)?;
    DataFrame::new(columns)
}

// The temperatures alone.
fn narrow_weather(alloc: Global) -> PolarsResult<DataFrame> {
    frame_with(alloc, temperatures(alloc)?)
}

fn is_other_type(made: PolarsResult<DataFrame>, name: &str) -> bool {
    match made {
        Err(PolarsError::SchemaMismatch(found)) => found.as_str() == name,
        _ => false,
    }
}

fn is_twice_in_two(frame: &DataFrame) -> bool {
    has_days(frame, &[0, 1, 2, 3, 4, 0, 1, 2, 3, 4])
        && frame
            .get_columns()
            .iter()
            .all(|column| column.n_chunks() == 2)
}

#[test]
fn frames_behind_frames(rt: HostRuntime) -> Result<(), Fail> {
    let alloc = rt.alloc();
    assert!(rt; holds_of(with_behind(alloc, weather(alloc)), is_twice_in_two));
    assert!(rt; is_other_type(with_behind(alloc, wide_weather(alloc)), "temp"));
    assert!(rt; is_mismatch(with_behind(alloc, narrow_weather(alloc))));
    Ok(())
}
