//! Each public call of the crate once.

use gb_base::any_value::{AnyList, AnyValue};
use gb_base::byte_str::ByteStr;
use gb_base::data_type::{DataType, TimeUnit};
use gb_base::device::{Failed, Sink, Source};
use gb_base::error::{Operation, PolarsError, PolarsResult};
use gb_base::field::Field;
use gb_base::memory::{MemSink, SoundSource};
use gb_base::nullable_idx::NullableIdxSize;
use gb_base::pool::Pool;
use gb_base::scalar::Scalar;
use gb_base::small_str::PlSmallStr;
use gb_base::standard::StderrSink;
use std::alloc::Global;
use std::test::Fail;

fn name_of(alloc: Global) -> PolarsResult<PlSmallStr> {
    PlSmallStr::from_str(alloc, "m")
}

#[test]
fn a_source_in_memory(rt: HostRuntime) -> Result<(), Fail> {
    let mut source = SoundSource::new(Vec::from_slice(rt.alloc(), b"abcde")?);
    let mut room = [0u8; 3];
    assert_eq!(rt; source.read(&mut room), Ok(3));
    assert_eq!(rt; room.as_slice(), b"abc".as_slice());
    assert_eq!(rt; source.read(&mut room), Ok(2));
    assert_eq!(rt; source.read(&mut room), Ok(0));
    Ok(())
}

#[test]
fn a_sink_in_memory(rt: HostRuntime) -> Result<(), Fail> {
    let alloc = rt.alloc();
    let mut sink = MemSink::new(alloc, 4, 3, vec![in alloc; 2u64]?)?;
    assert_eq!(rt; sink.write(b"abcde"), Ok(3));
    assert_eq!(rt; sink.write(b"de"), Err(Failed));
    assert_eq!(rt; sink.write(b"de"), Ok(1));
    assert_eq!(rt; sink.write(b"e"), Err(Failed));
    assert_eq!(rt; sink.bytes(), b"abcd".as_slice());
    Ok(())
}

#[test]
fn pools(rt: HostRuntime) -> Result<(), Fail> {
    for (workers, partitions, row_threshold, piece_rows, fits) in [
        (1, 1, 1, 1, true),
        (64, 1024, 9, 9, true),
        (0, 1, 1, 1, false),
        (65, 1, 1, 1, false),
        (1, 0, 1, 1, false),
        (1, 1025, 1, 1, false),
        (1, 1, 0, 1, false),
        (1, 1, 1, 0, false),
    ] {
        assert_eq!(rt;
            Pool::fits(workers, partitions, row_threshold, piece_rows),
            fits
        );
    }
    let pool = Pool::new(4, 8, 16, 32, 5);
    assert_eq!(rt;
        (
            pool.workers(),
            pool.partitions(),
            pool.row_threshold(),
            pool.piece_rows()
        ),
        (4, 8, 16, 32)
    );
    assert_eq!(rt; pool.seed(), 5);
    Ok(())
}

#[test]
fn row_numbers_that_may_be_missing(rt: HostRuntime) -> Result<(), Fail> {
    for (index, row) in [
        (NullableIdxSize::some(0), Some(0)),
        (NullableIdxSize::some(4294967294), Some(4294967294)),
        (NullableIdxSize::null(), None),
    ] {
        assert_eq!(rt; index.get(), row);
        assert_eq!(rt; index.is_null_idx(), row.is_none());
    }
    assert!(rt; NullableIdxSize::some(7) != NullableIdxSize::null());
    assert!(rt; NullableIdxSize::null() == NullableIdxSize::null());
    Ok(())
}

#[test]
fn a_sink_of_standard_error(rt: HostRuntime) -> Result<(), Fail> {
    let mut sink = StderrSink::new(rt.stderr());
    assert_eq!(rt; sink.write(b""), Ok(0));
    assert_eq!(rt; sink.write(b"told\n"), Ok(5));
    Ok(())
}

#[test]
fn operations_have_words(rt: HostRuntime) -> Result<(), Fail> {
    let alloc = rt.alloc();
    for (operation, words) in [
        (Operation::Sum, "sum"),
        (Operation::Product, "product"),
        (Operation::Min, "min"),
        (Operation::Max, "max"),
        (Operation::Hash, "hash"),
        (Operation::RowEncoding, "row encoding"),
    ] {
        assert_eq!(rt; format!(in alloc; "{operation}")?.as_str(), words);
    }
    Ok(())
}

#[test]
fn errors_have_lines(rt: HostRuntime) -> Result<(), Fail> {
    let alloc = rt.alloc();
    for (error, line) in [
        (PolarsError::ComputeError, "compute"),
        (PolarsError::ShapeMismatch, "shape mismatch"),
        (PolarsError::TooManyRows(7), "too many rows: 7"),
        (
            PolarsError::ColumnNotFound(name_of(alloc)?),
            "column not found: m",
        ),
        (
            PolarsError::InvalidOperation(Operation::RowEncoding, name_of(alloc)?),
            "invalid operation: row encoding of m",
        ),
        (
            PolarsError::Duplicate(name_of(alloc)?),
            "duplicate column: m",
        ),
        (
            PolarsError::SchemaMismatch(name_of(alloc)?),
            "schema mismatch: m",
        ),
        (PolarsError::NoMemory, "no memory"),
    ] {
        assert_eq!(rt; format!(in alloc; "{error}")?.as_str(), line);
    }
    Ok(())
}

#[test]
fn strings_of_bytes(rt: HostRuntime) -> Result<(), Fail> {
    let alloc = rt.alloc();
    for bytes in [b"".as_slice(), b"ab".as_slice(), b"\xff\0".as_slice()] {
        let copied = ByteStr::from_slice(alloc, bytes)?;
        assert_eq!(rt; copied.as_slice(), bytes);
        assert_eq!(rt; copied.try_clone()?, copied);
    }
    assert!(rt; ByteStr::from_slice(alloc, b"ab")? < ByteStr::from_slice(alloc, b"b")?);
    Ok(())
}

#[test]
fn values_in_values(rt: HostRuntime) -> Result<(), Fail> {
    let alloc = rt.alloc();
    let inner = vec![in alloc; AnyValue::Int64(-1), AnyValue::Null]?;
    let inner = AnyValue::Items(AnyList::new(inner));
    let outer = vec![in alloc; inner, AnyValue::String(name_of(alloc)?)]?;
    let outer = AnyList::new(outer);
    assert_eq!(rt; outer.as_slice().len(), 2);
    assert_eq!(rt; outer.as_slice()[1], AnyValue::String(name_of(alloc)?));
    assert!(rt; outer.as_slice()[0] != AnyValue::Items(AnyList::new(Vec::new(alloc))));
    assert!(rt; AnyValue::Int64(1) != AnyValue::Int32(1));
    Ok(())
}

fn dates(alloc: Global, width: usize) -> PolarsResult<DataType> {
    Ok(DataType::Array(Box::new(alloc, DataType::Date)?, width))
}

#[test]
fn types_in_types(rt: HostRuntime) -> Result<(), Fail> {
    let alloc = rt.alloc();
    let part = Field {
        name: name_of(alloc)?,
        dtype: dates(alloc, 3)?,
    };
    let parts = DataType::Struct(vec![in alloc; part]?);
    let list = DataType::List(Box::new(alloc, parts)?);
    assert_eq!(rt; list.clone()?, list);
    assert!(rt; dates(alloc, 3)? == dates(alloc, 3)?);
    assert!(rt; dates(alloc, 3)? != dates(alloc, 4)?);
    assert!(rt; list != DataType::List(Box::new(alloc, DataType::Date)?));
    Ok(())
}

#[test]
fn scalars(rt: HostRuntime) -> Result<(), Fail> {
    let time = DataType::Duration(TimeUnit::Milliseconds);
    let scalar = Scalar::new(time, AnyValue::Duration(-5));
    assert_eq!(rt; *scalar.dtype(), DataType::Duration(TimeUnit::Milliseconds));
    assert_eq!(rt; *scalar.value(), AnyValue::Duration(-5));
    let missing = Scalar::new(DataType::Boolean, AnyValue::Null);
    assert_eq!(rt; *missing.value(), AnyValue::Null);
    Ok(())
}
