//! Worked rows of flat columns.

use gb_base::data_type::{CategoricalOrdering, DataType};
use gb_base::error::{PolarsError, PolarsResult};
use gb_base::field::Field;
use gb_base::pool::Pool;
use gb_base::small_str::PlSmallStr;
use gb_cols::binary::BinaryOffsetChunked;
use gb_cols::boolean::BooleanChunked;
use gb_cols::chunked::StringChunked;
use gb_cols::null::NullChunked;
use gb_cols::primitive::{
    Int8Chunked, Int32Chunked, Int128Chunked, UInt16Chunked, UInt32Chunked, UInt64Chunked,
};
use gb_cols::series_trait::SeriesTrait;
use gb_logical::categorical::CategoricalChunked;
use gb_logical::logical::{DateChunked, DecimalChunked};
use gb_rows::context::{RowEncodingContext, get_row_encoding_context};
use gb_rows::rows_encoded::RowsEncoded;
use gb_rows::unordered::{
    _get_rows_encoded_ca_unordered, _get_rows_encoded_unordered, encode_rows_unordered,
};
use gb_rows::vertical::{
    encode_rows_vertical_par_unordered, encode_rows_vertical_par_unordered_broadcast_nulls,
};
use gb_series::frame::DataFrame;
use gb_series::into_series::IntoSeries;
use gb_series::series::Series;
use std::alloc::Global;
use std::slice;
use std::test::Fail;
use std::thread::Threads;

fn name(alloc: Global) -> PolarsResult<PlSmallStr> {
    Ok(PlSmallStr::from_str(alloc, "c")?)
}

fn are_rows(rows: &RowsEncoded, wanted: &[&[u8]]) -> bool {
    if rows.len() != wanted.len() {
        return false;
    }
    for row in 0..rows.len() {
        if rows.get(row) != wanted[row] {
            return false;
        }
    }
    true
}

fn cells_are(column: &Series, wanted: &[&[u8]]) -> bool {
    match rows_of(column) {
        Ok(rows) => are_rows(&rows, wanted),
        Err(_) => false,
    }
}

#[tactic(auto, using(gb_rows::proofs::LengthLemmas::one_length))]
fn rows_of(column: &Series) -> PolarsResult<RowsEncoded> {
    _get_rows_encoded_unordered(column.allocator(), slice::from_ref(column))
}

// Whether these are the cells of a column.
fn has_cells(column: PolarsResult<Series>, wanted: &[&[u8]]) -> bool {
    match column {
        Ok(column) => cells_are(&column, wanted),
        Err(_) => false,
    }
}

fn shorts(alloc: Global) -> PolarsResult<Series> {
    Ok(UInt16Chunked::from_slice(alloc, name(alloc)?, &[258])?.into_series())
}

fn words(alloc: Global) -> PolarsResult<Series> {
    Ok(UInt32Chunked::from_slice(alloc, name(alloc)?, &[1])?.into_series())
}

fn long_words(alloc: Global) -> PolarsResult<Series> {
    Ok(UInt64Chunked::from_slice(alloc, name(alloc)?, &[1])?.into_series())
}

fn small_numbers(alloc: Global) -> PolarsResult<Series> {
    let values = [Some(-1), None, Some(127), Some(-128)];
    Ok(Int8Chunked::from_slice_options(alloc, name(alloc)?, &values)?.into_series())
}

#[test]
fn numbers(rt: HostRuntime) -> Result<(), Fail> {
    let alloc = rt.alloc();
    assert!(rt; has_cells(shorts(alloc), &[&[1, 1, 2]]));
    assert!(rt; has_cells(words(alloc), &[&[1, 0, 0, 0, 1]]));
    assert!(rt; has_cells(long_words(alloc), &[&[1, 0, 0, 0, 0, 0, 0, 0, 1]]));
    assert!(rt;
        has_cells(
            small_numbers(alloc),
            &[&[1, 0x7f], &[0], &[1, 0xff], &[1, 0]]
        )
    );
    Ok(())
}

fn flags(alloc: Global) -> PolarsResult<Series> {
    let values = [Some(false), None, Some(true)];
    Ok(BooleanChunked::from_slice_options(alloc, name(alloc)?, &values)?.into_series())
}

fn nulls(alloc: Global) -> PolarsResult<Series> {
    Ok(NullChunked::new(alloc, name(alloc)?, 2).into_series())
}

fn dates(alloc: Global) -> PolarsResult<Series> {
    let days = Int32Chunked::from_slice(alloc, name(alloc)?, &[-1, 1])?;
    Ok(DateChunked::new(days).into_series())
}

fn decimals(alloc: Global) -> PolarsResult<Series> {
    let values = Int128Chunked::from_slice(alloc, name(alloc)?, &[-2])?;
    Ok(DecimalChunked::new(values, None, 2).into_series())
}

// The second of two texts, and then the first: their codes are 0 and 1.
fn categories(alloc: Global) -> PolarsResult<Series> {
    let mut texts = StringChunked::new(alloc, name(alloc)?);
    texts.push(Some("b"))?;
    texts.push(Some("a"))?;
    let column = CategoricalChunked::from_strings(&texts, CategoricalOrdering::Lexical, 7)?;
    Ok(column.into_series())
}

#[test]
fn meanings(rt: HostRuntime) -> Result<(), Fail> {
    let alloc = rt.alloc();
    assert!(rt; has_cells(flags(alloc), &[&[1, 0], &[0], &[1, 1]]));
    assert!(rt; has_cells(nulls(alloc), &[&[0], &[0]]));
    assert!(rt;
        has_cells(
            dates(alloc),
            &[&[1, 0x7f, 0xff, 0xff, 0xff], &[1, 0x80, 0, 0, 1]]
        )
    );
    let high = 0xff;
    let below = [
        1, 0x7f, high, high, high, high, high, high, high, high, high, high, high, high, high,
        high, 0xfe,
    ];
    assert!(rt; has_cells(decimals(alloc), &[&below]));
    assert!(rt; has_cells(categories(alloc), &[&[1, 0, 0, 0, 0], &[1, 0, 0, 0, 1]]));
    Ok(())
}

fn texts(alloc: Global) -> PolarsResult<Series> {
    let mut texts = StringChunked::new(alloc, name(alloc)?);
    texts.push(Some("a\0"))?;
    texts.push(Some(""))?;
    texts.push(None)?;
    Ok(texts.into_series())
}

fn row_bytes(alloc: Global) -> PolarsResult<Series> {
    let mut bytes = BinaryOffsetChunked::new(alloc, name(alloc)?);
    bytes.push(Some(&[0, 0, 255]))?;
    Ok(bytes.into_series())
}

#[test]
fn bytes(rt: HostRuntime) -> Result<(), Fail> {
    let alloc = rt.alloc();
    assert!(rt; has_cells(texts(alloc), &[&[1, b'a', 0, 255, 0, 0], &[1, 0, 0], &[0]]));
    assert!(rt; has_cells(row_bytes(alloc), &[&[1, 0, 255, 0, 255, 255, 0, 0]]));
    Ok(())
}

// ---- several keys

fn two_texts(alloc: Global, name: &str, first: &str, second: &str) -> PolarsResult<Series> {
    let mut texts = StringChunked::new(alloc, PlSmallStr::from_str(alloc, name)?);
    texts.push(Some(first))?;
    texts.push(Some(second))?;
    Ok(texts.into_series())
}

fn two_keys(alloc: Global) -> PolarsResult<DataFrame> {
    let mut columns = Vec::with_capacity(alloc, 2)?;
    columns.push(two_texts(alloc, "a", "ab", "a")?)?;
    columns.push(two_texts(alloc, "b", "c", "bc")?)?;
    DataFrame::new(columns)
}

fn has_both(alloc: Global, frame: &DataFrame) -> bool {
    let _ = frame.height();
    match encode_rows_unordered(alloc, frame.get_columns()) {
        Ok(rows) => {
            rows.name().as_str() == ""
                && rows.len() == 2
                && rows.get(0) == Some(&[1, b'a', b'b', 0, 0, 1, b'c', 0, 0])
                && rows.get(1) == Some(&[1, b'a', 0, 0, 1, b'b', b'c', 0, 0])
        }
        Err(_) => false,
    }
}

fn has_name(alloc: Global, frame: &DataFrame, name: PlSmallStr) -> bool {
    let _ = frame.height();
    match _get_rows_encoded_ca_unordered(alloc, name, frame.get_columns()) {
        Ok(rows) => rows.name().as_str() == "c" && rows.len() == 2 && rows.n_chunks() == 1,
        Err(_) => false,
    }
}

fn holds<F: Fn(&DataFrame) -> bool>(frame: PolarsResult<DataFrame>, test: F) -> bool
    requires { F.IsAlwaysCallable test }
{
    match frame {
        Ok(frame) => test(&frame),
        Err(_) => false,
    }
}

#[test]
fn several_keys(rt: HostRuntime) -> Result<(), Fail> {
    let alloc = rt.alloc();
    assert!(rt; holds(two_keys(alloc), |frame| has_both(alloc, frame)));
    assert!(rt;
        holds(two_keys(alloc), |frame| {
            match name(alloc) {
                Ok(name) => has_name(alloc, frame, name),
                Err(_) => false,
            }
        })
    );
    let none = DataFrame::empty(alloc);
    assert!(rt; has_no_rows(alloc, &none));
    Ok(())
}

fn has_no_rows(alloc: Global, frame: &DataFrame) -> bool {
    let _ = frame.height();
    match _get_rows_encoded_unordered(alloc, frame.get_columns()) {
        Ok(rows) => rows.len() == 0,
        Err(_) => false,
    }
}

// ---- each call that makes rows

fn below_zero(alloc: Global) -> PolarsResult<Series> {
    let values = [Some(-1), None];
    Ok(Int8Chunked::from_slice_options(alloc, name(alloc)?, &values)?.into_series())
}

fn above_zero(alloc: Global) -> PolarsResult<Series> {
    let values = [Some(1), None];
    Ok(Int8Chunked::from_slice_options(alloc, name(alloc)?, &values)?.into_series())
}

// Whether a column of rows has these.
fn has_rows(rows: PolarsResult<BinaryOffsetChunked>, wanted: &[Option<&[u8]>]) -> bool {
    match rows {
        Ok(rows) => are_slots(&rows, wanted),
        Err(_) => false,
    }
}

fn are_slots(rows: &BinaryOffsetChunked, wanted: &[Option<&[u8]>]) -> bool {
    if rows.len() != wanted.len() {
        return false;
    }
    for row in 0..rows.len() {
        if rows.get(row) != wanted[row] {
            return false;
        }
    }
    true
}

#[tactic(auto, using(gb_rows::proofs::LengthLemmas::one_length))]
fn in_one_chunk(column: &Series) -> PolarsResult<BinaryOffsetChunked> {
    encode_rows_unordered(column.allocator(), slice::from_ref(column))
}

#[tactic(auto, using(gb_rows::proofs::LengthLemmas::one_length))]
fn with_a_name(column: &Series) -> PolarsResult<BinaryOffsetChunked> {
    let alloc = column.allocator();
    _get_rows_encoded_ca_unordered(alloc, name(alloc)?, slice::from_ref(column))
}

#[tactic(auto, using(gb_rows::proofs::LengthLemmas::one_length))]
fn by_workers<T: Threads + Sync>(
    rt: &T,
    column: &Series,
    pool: &Pool,
) -> PolarsResult<BinaryOffsetChunked> {
    encode_rows_vertical_par_unordered(rt, column.allocator(), &[column], pool)
}

#[tactic(auto, using(gb_rows::proofs::LengthLemmas::one_length))]
fn broadcast<T: Threads + Sync>(
    rt: &T,
    column: &Series,
    pool: &Pool,
) -> PolarsResult<BinaryOffsetChunked> {
    encode_rows_vertical_par_unordered_broadcast_nulls(rt, column.allocator(), &[column], pool)
}

fn holds_of<F: Fn(&Series) -> bool>(column: PolarsResult<Series>, test: F) -> bool
    requires { F.IsAlwaysCallable test }
{
    match column {
        Ok(column) => test(&column),
        Err(_) => false,
    }
}

#[test]
fn each_call(rt: HostRuntime) -> Result<(), Fail> {
    let alloc = rt.alloc();
    let one = Pool::new(1, 1, 1, 1, 0);
    let cells = [Some([1, 0x7f].as_slice()), Some([0].as_slice())];
    assert!(rt; has_cells(below_zero(alloc), &[&[1, 0x7f], &[0]]));
    assert!(rt;
        holds_of(
            below_zero(alloc),
            |column| has_rows(in_one_chunk(column), &cells)
        )
    );
    assert!(rt;
        holds_of(
            below_zero(alloc),
            |column| has_rows(with_a_name(column), &cells)
        )
    );
    assert!(rt;
        holds_of(
            below_zero(alloc),
            |column| has_rows(by_workers(&rt, column, &one), &cells)
        )
    );
    Ok(())
}

#[test]
fn nulls_of_rows(rt: HostRuntime) -> Result<(), Fail> {
    let alloc = rt.alloc();
    let one = Pool::new(1, 1, 1, 1, 0);
    let cells = [Some([1, 0x81].as_slice()), None];
    assert!(rt;
        holds_of(
            above_zero(alloc),
            |column| has_rows(broadcast(&rt, column, &one), &cells)
        )
    );
    Ok(())
}

// ---- two keys with nulls, by several workers

fn small_key(alloc: Global) -> PolarsResult<Series> {
    let values = [Some(1), None, Some(-1)];
    Ok(Int8Chunked::from_slice_options(alloc, name(alloc)?, &values)?.into_series())
}

fn flag_key(alloc: Global) -> PolarsResult<Series> {
    let values = [Some(false), Some(true), None];
    Ok(BooleanChunked::from_slice_options(alloc, name(alloc)?, &values)?.into_series())
}

#[tactic(auto, using(gb_rows::proofs::LengthLemmas::two_lengths))]
fn two_by_workers<T: Threads + Sync>(
    rt: &T,
    first: &Series,
    second: &Series,
    pool: &Pool,
) -> PolarsResult<BinaryOffsetChunked> {
    if second.len() != first.len() {
        return Err(PolarsError::NoMemory);
    }
    encode_rows_vertical_par_unordered(rt, first.allocator(), &[first, second], pool)
}

#[tactic(auto, using(gb_rows::proofs::LengthLemmas::two_lengths))]
fn two_broadcast<T: Threads + Sync>(
    rt: &T,
    first: &Series,
    second: &Series,
    pool: &Pool,
) -> PolarsResult<BinaryOffsetChunked> {
    if second.len() != first.len() {
        return Err(PolarsError::NoMemory);
    }
    encode_rows_vertical_par_unordered_broadcast_nulls(
        rt,
        first.allocator(),
        &[first, second],
        pool,
    )
}

// Whether the rows of two keys are as they should be, in so many chunks.
fn are_as_wanted<T: Threads + Sync>(
    rt: &T,
    first: &Series,
    second: &Series,
    pool: &Pool,
    n_chunks: usize,
) -> bool {
    let cells = [
        Some([1, 0x81, 1, 0].as_slice()),
        Some([0, 1, 1].as_slice()),
        Some([1, 0x7f, 0].as_slice()),
    ];
    let full = [Some([1, 0x81, 1, 0].as_slice()), None, None];
    has_chunks(two_by_workers(rt, first, second, pool), &cells, n_chunks)
        && has_chunks(two_broadcast(rt, first, second, pool), &full, n_chunks)
}

fn has_chunks(
    rows: PolarsResult<BinaryOffsetChunked>,
    wanted: &[Option<&[u8]>],
    n_chunks: usize,
) -> bool {
    match rows {
        Ok(rows) => rows.n_chunks() == n_chunks && are_slots(&rows, wanted),
        Err(_) => false,
    }
}

#[test]
fn several_workers(rt: HostRuntime) -> Result<(), Fail> {
    let alloc = rt.alloc();
    let one = Pool::new(1, 1, 1, 1, 0);
    let three = Pool::new(3, 1, 1, 1, 0);
    assert!(rt;
        holds_of(small_key(alloc), |first| {
            holds_of(flag_key(alloc), |second| {
                are_as_wanted(&rt, first, second, &one, 1)
                    && are_as_wanted(&rt, first, second, &three, 3)
            })
        })
    );
    Ok(())
}

// ---- contexts

fn has_context<F: Fn(&Option<RowEncodingContext>) -> bool>(
    alloc: Global,
    dtype: &DataType,
    test: F,
) -> bool
    requires { F.IsAlwaysCallable test }
{
    match get_row_encoding_context(alloc, dtype, false) {
        Ok(context) => test(&context),
        Err(_) => false,
    }
}

fn has_digits(context: &Option<RowEncodingContext>, digits: usize) -> bool {
    match context {
        Some(RowEncodingContext::Decimal(precision)) => *precision == digits,
        _ => false,
    }
}

// Whether it is that of a struct of a plain field and of a decimal of ten digits.
fn is_of_both(context: &Option<RowEncodingContext>) -> bool {
    match context {
        Some(RowEncodingContext::Struct(fields)) => {
            fields.len() == 2 && fields[0].is_none() && has_digits(&fields[1], 10)
        }
        _ => false,
    }
}

fn both(alloc: Global) -> PolarsResult<DataType> {
    let mut fields = Vec::with_capacity(alloc, 2)?;
    fields.push(Field {
        name: name(alloc)?,
        dtype: DataType::Int32,
    })?;
    fields.push(Field {
        name: name(alloc)?,
        dtype: DataType::Decimal(Some(10), Some(2)),
    })?;
    Ok(DataType::Struct(fields))
}

fn has_both_contexts(alloc: Global) -> bool {
    match both(alloc) {
        Ok(dtype) => has_context(alloc, &dtype, |context| is_of_both(context)),
        Err(_) => false,
    }
}

#[test]
fn contexts(rt: HostRuntime) -> Result<(), Fail> {
    let alloc = rt.alloc();
    let decimal = DataType::Decimal(None, Some(2));
    assert!(rt; has_context(alloc, &DataType::Int32, |context| context.is_none()));
    assert!(rt; has_context(alloc, &decimal, |context| has_digits(context, 38)));
    assert!(rt; has_both_contexts(alloc));
    Ok(())
}
