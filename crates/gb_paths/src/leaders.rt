//! The first row of each row's group, and the numbers of the groups by these.

ghost use Rattle.std.specs.Prelude.{◌≡◌, ◌++◌, ◌==◌, ◌<◌, ◌≤◌, ◌∷◌, [], All, IfOk, OnOk, get_or, if◌then◌else◌, length, map};
ghost use Rattle.gb_defs.specs.Classes.{rows_below};
ghost use Rattle.gb_defs.specs.Groups.{HasRowNumbers};
ghost use Rattle.gb_paths.specs.Leaders.{AreLeaders, put_at, same_leader};
ghost use Rattle.gb_paths.specs.Numbering.{AreNumbersOf};

use crate::row_numbers::RowNumbers;
use gb_base::nullable_idx::IdxSize;
use std::alloc::{AllocError, Global};

/// Some of the rows, and of each the first row of its group: its leader.
#[derive(Drop)]
pub struct LedRows {
    pub rows: Vec<IdxSize>,
    pub leaders: Vec<IdxSize>,
}

/// The numbers of all rows' groups, where two rows are in one if they have one leader.
pub(crate) fn number_leaders(alloc: Global, leaders: &[IdxSize]) -> Result<RowNumbers, AllocError>
    requires few { HasRowNumbers (length leaders.now) }
    requires leaders { AreLeaders leaders.now }
    ensures { IfOk result (λ numbers. AreNumbersOf (same_leader leaders.now)
        (rows_below (length leaders.now)) numbers.first.items numbers.of_rows.items) }
{
    let mut first = Vec::with_capacity(alloc, leaders.len())?;
    let mut of_rows = Vec::with_capacity(alloc, leaders.len())?;
    for row in 0..leaders.len() {
        push_number(&mut first, &mut of_rows, row as u32, leaders[row])?;
    }
    Ok(RowNumbers { first, of_rows })
}

// Behind the numbers of the rows before, that of a row: the next one, where it leads its group.
#[inline(always)]
fn push_number(
    first: &mut Vec<IdxSize>,
    of_rows: &mut Vec<u32>,
    row: IdxSize,
    leader: IdxSize,
) -> Result<(), AllocError>
    requires low { leader ≤ row }
    requires rows { length of_rows.old.items ≡ row }
    requires few { length first.old.items ≤ row }
    ensures first { OnOk result (first.new.items
        ≡ first.old.items ++ (if leader == row then row ∷ [] else [])) }
    ensures number { let numbers = of_rows.old.items in OnOk result (of_rows.new.items ≡ numbers
        ++ (if leader == row then length first.old.items else get_or numbers leader 0) ∷ []) }
{
    if leader == row {
        of_rows.push(first.len() as u32)?;
        first.push(row)?;
        Ok(())
    } else {
        let number = of_rows[leader as usize];
        of_rows.push(number)?;
        Ok(())
    }
}

/// Puts the leaders of some rows into the places of these rows.
pub(crate) fn put_leaders(all: &mut [IdxSize], rows: &[IdxSize], leaders: &[IdxSize])
    requires each { length leaders.now ≡ length rows.now }
    requires inside { All (λ row. row < length all.old) rows.now }
    ensures { all.new ≡ put_at all.old rows.now leaders.now }
{
    for place in 0..rows.len() {
        all[rows[place] as usize] = leaders[place];
    }
}

/// The first row of each row's group.
pub(crate) fn leaders_of(alloc: Global, numbers: &RowNumbers) -> Result<Vec<IdxSize>, AllocError>
    ensures { let first = numbers.now.first.items in IfOk result (λ leaders.
        leaders.items ≡ map (λ number. get_or first number 0) numbers.now.of_rows.items) }
{
    let mut leaders = Vec::with_capacity(alloc, numbers.of_rows.len())?;
    for place in 0..numbers.of_rows.len() {
        let number = numbers.of_rows[place];
        leaders.push(numbers.first[number as usize])?;
    }
    Ok(leaders)
}
