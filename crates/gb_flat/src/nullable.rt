//! Row numbers of several buffers in one column.

ghost use Rattle.std.specs.Prelude.{◌≡◌, IfOk, IfErr};
ghost use Rattle.gb_base.specs.PlSmallStr.{IsNoMemory};
ghost use Rattle.gb_flat.specs.Buffers.{joined};
ghost use Rattle.gb_flat.specs.Nullable.{rows_column};

use crate::flatten::flatten_par;
use gb_base::error::PolarsResult;
use gb_base::nullable_idx::NullableIdxSize;
use gb_base::pool::Pool;
use gb_base::small_str::PlSmallStr;
use gb_cols::chunked::IdxCa;
use std::alloc::Global;
use std::thread::Threads;

/// The row numbers of the buffers in order, null where a row is missing, in a column with no name.
pub fn flatten_nullable<R: Threads + Sync>(
    rt: &R,
    alloc: Global,
    bufs: &[Vec<NullableIdxSize>],
    pool: &Pool,
) -> PolarsResult<IdxCa>
    ensures ok { IfOk result (λ c. c ≡ rows_column (joined bufs.now)) }
    ensures err { IfErr result IsNoMemory }
{
    let rows = flatten_par(rt, alloc, bufs, pool)?;
    column_of(alloc, &rows)
}

// These row numbers in one chunk.
fn column_of(alloc: Global, rows: &[NullableIdxSize]) -> PolarsResult<IdxCa>
    ensures ok { IfOk result (λ c. c ≡ rows_column rows.now) }
    ensures err { IfErr result IsNoMemory }
{
    let mut column = IdxCa::new(alloc, PlSmallStr::from_str(alloc, "")?);
    column.reserve(rows.len())?;
    for row in rows {
        column.push(row.get())?;
    }
    Ok(column)
}
