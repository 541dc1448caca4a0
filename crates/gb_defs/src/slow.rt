//! The definitions as a plain slow program: to run on small inputs, and to compare fast bodies with.

ghost use Rattle.std.specs.Prelude.{◌≡◌, ℕ, ◌+◌, ◌<◌, ◌==◌, ◌^◌, IfOk, length, map, slice_index, pos, All, MatchOption, ◌+ℤ◌};
ghost use Rattle.gb_defs.specs.Classes.{class, firsts, rows_below};
ghost use Rattle.gb_defs.specs.ColumnType.{int64};
ghost use Rattle.gb_defs.specs.Fold.{wrap, total, valid, picked};
ghost use Rattle.gb_defs.specs.Slow.{same_key, value_slots};

use std::alloc::{AllocError, Global};

/// The rows whose key no earlier row has.
pub fn firsts(alloc: Global, keys: &[u64]) -> Result<Vec<usize>, AllocError>
    ensures { IfOk result (λ rows. rows.items
        ≡ firsts (same_key keys.now) (rows_below (length keys.now))) }
{
    let mut rows = Vec::new(alloc);
    for row in 0..keys.len() {
        if !keys[..row].contains(&keys[row]) {
            rows.push(row)?;
        }
    }
    Ok(rows)
}

/// The rows with this row's key.
pub fn class_of(alloc: Global, keys: &[u64], of: usize) -> Result<Vec<usize>, AllocError>
    requires { of < length keys.now }
    ensures { IfOk result (λ rows. rows.items
        ≡ class (same_key keys.now) (rows_below (length keys.now)) of) }
{
    let mut rows = Vec::new(alloc);
    for row in 0..keys.len() {
        if keys[of] == keys[row] {
            rows.push(row)?;
        }
    }
    Ok(rows)
}

/// The sum of the values at these rows, wrapping at 64 bits; what is missing adds nothing.
pub fn sum(values: &[Option<i64>], rows: &[usize]) -> i64
    requires { All (λ row. row < length values.now) rows.now }
    ensures { result ≡ wrap int64 (total (valid (picked (value_slots values.now) rows.now))) }
{
    let mut sum: i64 = 0;
    for row in rows {
        sum = with_slot(sum, values[*row]);
    }
    sum
}

fn with_slot(sum: i64, slot: Option<i64>) -> i64
    ensures value { MatchOption slot (result ≡ sum) (λ n. result ≡ wrap int64 (sum +ℤ n)) }
{
    match slot {
        Some(value) => sum.wrapping_add(value),
        None => sum,
    }
}

#[cfg(test)]
mod tests {
    use super::*;
    use std::test::Fail;

    #[test]
    fn five_rows(rt: HostRuntime) -> Result<(), Fail> {
        let keys = [3, 1, 3, 2, 1];
        let values = [Some(i64::MAX), Some(7), Some(1), None, None];
        let rows = firsts(rt.alloc(), &keys)?;
        assert_eq!(rt; rows.as_slice(), [0usize, 1, 3].as_slice());
        let class = class_of(rt.alloc(), &keys, 2)?;
        assert_eq!(rt; class.as_slice(), [0usize, 2].as_slice());
        assert_eq!(rt; sum(&values, &[0, 2]), i64::MIN);
        assert_eq!(rt; sum(&values, &[1, 4]), 7);
        assert_eq!(rt; sum(&values, &[3]), 0);
        Ok(())
    }
}
