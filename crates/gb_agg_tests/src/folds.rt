//! Each fold of numbers: over a number and a null, and over no rows, as row lists and as runs.

ghost use Rattle.std.specs.Prelude.{◌≡◌, length, All, IfOk};
ghost use Rattle.gb_defs.specs.Groups.{AreMembers, lists_in};
ghost use Rattle.gb_groups.specs.GroupsType.{groups_of};

use gb_agg::group_rows::RowList;
use gb_agg::number_fold::{NumberFold, RowCount, SumOf, ValidCount, fold_group};
use gb_agg::slot_fold::{SumFold, fold_numbered};
use gb_base::small_str::PlSmallStr;
use gb_cols::primitive::Int64Chunked;
use gb_flat_series::series::FlatSeries;
use gb_groups::groups_slice::GroupsSlice;
use gb_groups::groups_type::GroupsType;
use gb_groups::row_lists::AllRows;
use gb_numbers::numeric::PolarsNumericType;
use gb_series::series::Series;
use std::alloc::Global;
use std::test::Fail;

// 7 and null.
fn two_slots(alloc: Global) -> Result<Int64Chunked, Fail>
    ensures { IfOk result (λ c. length c.slots ≡ 2) }
{
    let mut column = Int64Chunked::new(alloc, PlSmallStr::from_str(alloc, "n")?);
    column.push(Some(7))?;
    column.push(None)?;
    Ok(column)
}

// Both rows, the latter, and none, as runs.
fn three_runs(alloc: Global) -> Result<GroupsType, Fail>
    ensures { IfOk result (λ g. All (AreMembers 2) (lists_in (groups_of g))) }
{
    let runs = vec![in alloc; [0u32, 2], [1, 1], [2, 0]]?;
    Ok(GroupsType::Slice {
        groups: GroupsSlice::from_vec(runs),
        rolling: true,
    })
}

// Whether the fold makes these of the groups.
fn makes<F: NumberFold>(
    fold: &F,
    groups: &GroupsType,
    wanted: &[Option<<F::Out as PolarsNumericType>::Native>],
) -> bool
    requires { All (AreMembers (F.height fold.now)) (lists_in (groups_of groups.now)) }
{
    if groups.len() != wanted.len() {
        return false;
    }
    for (index, made) in wanted.iter().enumerate() {
        if fold_group(fold, &groups.get(index)) != *made {
            return false;
        }
    }
    true
}

#[test]
fn rows_are_folded(rt: HostRuntime) -> Result<(), Fail> {
    let column = two_slots(rt.alloc())?;
    assert_eq!(rt; SumOf::new(&column).over(&RowList::new(&[0, 1])), Some(7));
    assert_eq!(rt; SumOf::new(&column).over(&RowList::new(&[])), Some(0));
    assert_eq!(rt; RowCount.over(&RowList::new(&[0, 1])), Some(2));
    let column = Series::Flat(FlatSeries::Int64(column));
    assert_eq!(rt;
        ValidCount::new(&column).over(&RowList::new(&[0, 1])),
        Some(1)
    );
    assert_eq!(rt; ValidCount::new(&column).over(&RowList::new(&[])), None);
    Ok(())
}

#[test]
fn rows_are_folded_by_number(rt: HostRuntime) -> Result<(), Fail> {
    let column = two_slots(rt.alloc())?;
    let rows = AllRows::new(2);
    let sums = fold_numbered(rt.alloc(), &column, &SumFold, &rows, &[1, 1], 2)?;
    assert!(rt; sums.as_slice() == [0, 7].as_slice());
    Ok(())
}

#[test]
fn runs_are_folded(rt: HostRuntime) -> Result<(), Fail> {
    let groups = three_runs(rt.alloc())?;
    let column = two_slots(rt.alloc())?;
    assert!(rt; makes(&SumOf::new(&column), &groups, &[Some(7), Some(0), Some(0)]));
    assert!(rt; makes(&RowCount, &groups, &[Some(2), Some(1), Some(0)]));
    let column = Series::Flat(FlatSeries::Int64(column));
    assert!(rt;
        makes(
            &ValidCount::new(&column),
            &groups,
            &[Some(1), Some(0), None]
        )
    );
    Ok(())
}
