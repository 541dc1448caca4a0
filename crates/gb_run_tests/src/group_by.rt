//! Frames that are grouped by name, and each aggregate of them, as text.

use gb_base::error::PolarsResult;
use gb_base::pool::Pool;
use gb_base::small_str::PlSmallStr;
use gb_frame::by_names::FrameGroupBy;
use gb_series::frame::DataFrame;
use gb_text::status::TableError;
use gb_text::table::blocks::Reading;
use gb_text::table::table_of;
use gb_text::text::text_of;
use std::alloc::Global;
use std::test::Fail;
use std::thread::Threads;

const DAYS: &str =
    "date,temp:i32\n2020-08-21,20\n2020-08-21,10\n2020-08-22,7\n2020-08-23,9\n2020-08-22,1\n";

pub(crate) fn days<R: Threads + Sync>(rt: &R, alloc: Global) -> Result<DataFrame, TableError> {
    let reading = Reading {
        names: &["date", "temp"],
        null_word: "",
        workers: 1,
        block: 1,
        seed: 7,
    };
    table_of(rt, alloc, DAYS.as_bytes(), &reading)
}

pub(crate) fn names(alloc: Global, words: &[&str]) -> PolarsResult<Vec<PlSmallStr>> {
    let mut names = Vec::new(alloc);
    for word in words {
        names.push(PlSmallStr::from_str(alloc, word)?)?;
    }
    Ok(names)
}

// Whether a frame was made whose text is this.
pub(crate) fn writes<R: Threads + Sync>(
    rt: &R,
    alloc: Global,
    made: PolarsResult<DataFrame>,
    text: &str,
) -> PolarsResult<bool> {
    let frame = made?;
    let parts = text_of(rt, alloc, &frame, "-", 1)?;
    Ok(parts.len() == 1 && parts[0].as_slice() == text.as_bytes())
}

#[test]
fn aggregates_of_a_grouping(rt: HostRuntime) -> Result<(), Fail> {
    let alloc = rt.alloc();
    let pool = Pool::new(2, 2, 1, 1, 0);
    let frame = days(&rt, alloc)?;
    let by = names(alloc, &["date"])?;
    let grouped = frame.group_by_stable(&rt, alloc, &by, &pool)?;
    let made = grouped.sum(&rt, alloc, &pool);
    let text = "date:str,temp_sum:i32\n2020-08-21,30\n2020-08-22,8\n2020-08-23,9\n";
    assert!(rt; writes(&rt, alloc, made, text)?);
    let made = grouped.min(&rt, alloc, &pool);
    let text = "date:str,temp_min:i32\n2020-08-21,10\n2020-08-22,1\n2020-08-23,9\n";
    assert!(rt; writes(&rt, alloc, made, text)?);
    let made = grouped.max(&rt, alloc, &pool);
    let text = "date:str,temp_max:i32\n2020-08-21,20\n2020-08-22,7\n2020-08-23,9\n";
    assert!(rt; writes(&rt, alloc, made, text)?);
    let made = grouped.first(&rt, alloc, &pool);
    let text = "date:str,temp_first:i32\n2020-08-21,20\n2020-08-22,7\n2020-08-23,9\n";
    assert!(rt; writes(&rt, alloc, made, text)?);
    let made = grouped.last(&rt, alloc, &pool);
    let text = "date:str,temp_last:i32\n2020-08-21,10\n2020-08-22,1\n2020-08-23,9\n";
    assert!(rt; writes(&rt, alloc, made, text)?);
    Ok(())
}

#[test]
fn counts_and_lists_of_a_grouping(rt: HostRuntime) -> Result<(), Fail> {
    let alloc = rt.alloc();
    let pool = Pool::new(2, 2, 1, 1, 0);
    let frame = days(&rt, alloc)?;
    let by = names(alloc, &["date"])?;
    let grouped = frame.group_by_stable(&rt, alloc, &by, &pool)?;
    assert_eq!(rt; grouped.df().height(), 5);
    assert_eq!(rt; grouped.get_groups().view().len(), 3);
    assert_eq!(rt; grouped.keys(alloc)?.len(), 1);
    let made = grouped.n_unique(&rt, alloc, &pool);
    let text = "date:str,temp_n_unique:u32\n2020-08-21,2\n2020-08-22,2\n2020-08-23,1\n";
    assert!(rt; writes(&rt, alloc, made, text)?);
    let made = grouped.count(&rt, alloc, &pool);
    let text = "date:str,temp_count:u32\n2020-08-21,2\n2020-08-22,2\n2020-08-23,1\n";
    assert!(rt; writes(&rt, alloc, made, text)?);
    let made = grouped.agg_list(&rt, alloc, &pool);
    let text =
        "date:str,temp_agg_list:list[i32]\n2020-08-21,\"[20,10]\"\n2020-08-22,\"[7,1]\"\n2020-08-23,[9]\n";
    assert!(rt; writes(&rt, alloc, made, text)?);
    let made = grouped.groups(&rt, alloc, &pool);
    let text =
        "date:str,groups:list[u32]\n2020-08-21,\"[0,1]\"\n2020-08-22,\"[2,4]\"\n2020-08-23,[3]\n";
    assert!(rt; writes(&rt, alloc, made, text)?);
    assert_eq!(rt; grouped.take_groups().view().len(), 3);
    Ok(())
}

// Why there is no frame; nothing where there is one.
pub(crate) fn refusal(alloc: Global, made: PolarsResult<DataFrame>) -> PolarsResult<String> {
    match made {
        Ok(_) => Ok(String::new(alloc)),
        Err(error) => Ok(format!(in alloc; "{error}")?),
    }
}

// The sums of these columns of the days by these keys, or why there are none.
fn sums<R: Threads + Sync>(
    rt: &R,
    alloc: Global,
    frame: &DataFrame,
    by: &[&str],
    selected: &[&str],
) -> PolarsResult<DataFrame> {
    let pool = Pool::new(1, 1, 1, 1, 0);
    let by = names(alloc, by)?;
    let grouped = frame.group_by_stable(rt, alloc, &by, &pool)?;
    let grouped = grouped.select(names(alloc, selected)?);
    grouped.sum(rt, alloc, &pool)
}

#[test]
fn refused_groupings(rt: HostRuntime) -> Result<(), Fail> {
    let alloc = rt.alloc();
    let frame = days(&rt, alloc)?;
    let cases: [(&[&str], &[&str], &str); 7] = [
        (&["date"], &["temp"], ""),
        (&[], &["temp"], "compute"),
        (&["date", "day"], &["warmth"], "column not found: day"),
        (&["date", "date"], &["warmth"], "duplicate column: date"),
        (&["date"], &["date", "warmth"], "column not found: warmth"),
        (
            &["date"],
            &["date", "temp"],
            "invalid operation: sum of date",
        ),
        (&["date"], &["temp", "temp"], "duplicate column: temp_sum"),
    ];
    for (by, selected, told) in cases {
        let made = sums(&rt, alloc, &frame, by, selected);
        assert_eq!(rt; refusal(alloc, made)?.as_str(), told);
    }
    Ok(())
}

// The number of rows that agree, in the order in which groups are found: one partition leaves them in that of
// first rows.
#[test]
fn groups_as_they_are_found(rt: HostRuntime) -> Result<(), Fail> {
    let alloc = rt.alloc();
    let frame = days(&rt, alloc)?;
    let by = names(alloc, &["date"])?;
    for partitions in [1, 4] {
        let pool = Pool::new(2, partitions, 1, 1, 0);
        let grouped = frame.group_by(&rt, alloc, &by, &pool)?;
        assert_eq!(rt; grouped.get_groups().view().len(), 3);
        let counted = grouped.count(&rt, alloc, &pool)?;
        assert_eq!(rt; (counted.height(), counted.width()), (3, 2));
    }
    Ok(())
}
