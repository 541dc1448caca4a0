//! Buffers laid one after another, and ranges worked on, by one worker and by several.

ghost use Rattle.std.specs.Prelude.{◌+◌, ◌≤◌, IfErr};
ghost use Rattle.gb_base.specs.PlSmallStr.{IsNoMemory};

use gb_base::error::PolarsResult;
use gb_base::nullable_idx::NullableIdxSize;
use gb_base::pool::Pool;
use gb_cols::series_trait::SeriesTrait;
use gb_flat::clean::create_clean_partitions;
use gb_flat::flatten::flatten_par;
use gb_flat::nullable::flatten_nullable;
use gb_flat::shares::{cap_and_offsets, join_shares, map_shares, split_offsets};
use std::alloc::{AllocError, Global};
use std::test::Fail;

// Buffers with these items.
fn buffers(alloc: Global, items: &[&[u32]]) -> Result<Vec<Vec<u32>>, AllocError> {
    let mut buffers = Vec::new(alloc);
    for items in items {
        buffers.push(Vec::from_slice(alloc, items)?)?;
    }
    Ok(buffers)
}

#[test]
fn ranges_cover_a_length(rt: HostRuntime) -> Result<(), Fail> {
    let alloc = rt.alloc();
    let ranges = split_offsets(alloc, 10, 3)?;
    assert_eq!(rt; ranges.as_slice(), [(0, 3), (3, 3), (6, 4)].as_slice());
    let ranges = split_offsets(alloc, 1, 3)?;
    assert_eq!(rt; ranges.as_slice(), [(0, 0), (0, 0), (0, 1)].as_slice());
    Ok(())
}

#[test]
fn buffers_begin_where_others_end(rt: HostRuntime) -> Result<(), Fail> {
    let alloc = rt.alloc();
    let bufs = buffers(alloc, &[&[1, 2], &[], &[3, 4, 5]])?;
    let (total, starts) = cap_and_offsets(alloc, &bufs)?;
    assert_eq!(rt; total, 5);
    assert_eq!(rt; starts.as_slice(), [0, 2, 2].as_slice());
    Ok(())
}

#[test]
fn items_stand_in_order(rt: HostRuntime) -> Result<(), Fail> {
    let alloc = rt.alloc();
    for workers in [1, 2, 3, 4, 64] {
        let pool = Pool::new(workers, 1, 1, 1, 0);
        let bufs = buffers(alloc, &[&[1, 2], &[], &[3]])?;
        let flat = flatten_par(&rt, alloc, &bufs, &pool)?;
        assert_eq!(rt; flat.as_slice(), [1, 2, 3].as_slice());
        let bufs = buffers(alloc, &[&[], &[7], &[8, 9], &[], &[4]])?;
        let flat = flatten_par(&rt, alloc, &bufs, &pool)?;
        assert_eq!(rt; flat.as_slice(), [7, 8, 9, 4].as_slice());
        let bufs = buffers(alloc, &[&[], &[]])?;
        assert!(rt; flatten_par(&rt, alloc, &bufs, &pool)?.is_empty());
    }
    Ok(())
}

#[test]
fn missing_rows_are_null(rt: HostRuntime) -> Result<(), Fail> {
    let alloc = rt.alloc();
    let pool = Pool::new(2, 1, 1, 1, 0);
    let mut bufs = Vec::new(alloc);
    bufs.push(vec![in alloc; NullableIdxSize::some(5)]?)?;
    bufs.push(vec![in alloc; NullableIdxSize::null()]?)?;
    let column = flatten_nullable(&rt, alloc, &bufs, &pool)?;
    assert_eq!(rt; column.name().as_str(), "");
    let rows = [Some(5), None];
    assert_eq!(rt; column.len(), rows.len());
    for (place, row) in rows.iter().enumerate() {
        assert_eq!(rt; column.get(place), *row);
    }
    Ok(())
}

// The numbers of a range.
fn numbers(alloc: Global, share: (usize, usize)) -> PolarsResult<Vec<usize>>
    requires { share.0 + share.1 ≤ 10 }
    ensures { IfErr result IsNoMemory }
{
    let (start, count) = share;
    let mut numbers = Vec::new(alloc);
    for number in start..start + count {
        numbers.push(number)?;
    }
    Ok(numbers)
}

#[test]
fn shares_are_joined_in_order(rt: HostRuntime) -> Result<(), Fail> {
    let alloc = rt.alloc();
    for workers in [1, 3, 12] {
        let made = map_shares(
            &rt,
            alloc,
            10,
            workers,
            &|share: (usize, usize)|
                requires { share.0 + share.1 ≤ 10 }
                ensures { IfErr result IsNoMemory }
            { numbers(alloc, share) },
        )?;
        assert_eq!(rt; made.len(), workers);
        let all = join_shares(alloc, made)?;
        assert_eq!(rt; all.as_slice(), [0, 1, 2, 3, 4, 5, 6, 7, 8, 9].as_slice());
    }
    Ok(())
}

#[test]
fn runs_stay_whole(rt: HostRuntime) -> Result<(), Fail> {
    let all: [(&[u64], usize, &[(usize, usize)]); 10] = [
        (&[1, 1, 1, 2, 2], 2, &[(0, 3), (3, 2)]),
        (&[], 3, &[]),
        (&[7], 1, &[(0, 1)]),
        (&[5, 5, 5, 5, 5, 5, 5, 5], 4, &[(0, 8)]),
        (&[1, 2, 3, 4, 5, 6, 7], 3, &[(0, 2), (2, 2), (4, 3)]),
        (&[1, 2, 3], 9, &[(0, 1), (1, 1), (2, 1)]),
        (&[1, 1, 2], 9, &[(0, 2), (2, 1)]),
        (&[3, 1, 3], 1, &[(0, 3)]),
        (
            &[1, 2, 2, 2, 2, 2, 2, 3, 3, 4],
            5,
            &[(0, 7), (7, 2), (9, 1)],
        ),
        (&[1, 2, 2, 2, 1, 1, 9, 9], 4, &[(0, 4), (4, 2), (6, 2)]),
    ];
    for (values, n, wanted) in all {
        let parts = create_clean_partitions(rt.alloc(), values, n)?;
        assert_eq!(rt; parts.as_slice(), wanted, "{values:?} in {n}");
    }
    Ok(())
}
