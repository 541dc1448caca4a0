//! The hashes of columns of any type, and of the rows of several.

ghost use Rattle.std.specs.Prelude.{◌≡◌, ◌<◌, None, Some, length, map, true, IsOk, IfOk, IfErr, OnOk, OnErr};
ghost use Rattle.gb_base.specs.PlSmallStr.{name_of};
ghost use Rattle.gb_base.specs.PolarsError.{Explains};
ghost use Rattle.gb_defs.specs.Column.{all_have_length, frame_height};
ghost use Rattle.gb_defs.specs.Fault.{InvalidOperation, OfHash, key_fault};
ghost use Rattle.gb_flat_series.specs.FlatSeries.{column_of};
ghost use Rattle.gb_row_hash.specs.Hashes.{combined_all, combined_hashes};
ghost use Rattle.gb_row_hash.specs.Rows.{first_key_fault, row_hashes};
ghost use Rattle.gb_series.specs.Series.{value_of};

use crate::vec_hash::VecHash;
use gb_base::error::{Operation, PolarsError, PolarsResult};
use gb_base::small_str::PlSmallStr;
use gb_cols::series_trait::SeriesTrait;
use gb_flat_series::series::FlatSeries;
use gb_hash::dirty_hash::Mixer;
use gb_series::series::{Column, Series};

impl VecHash for Series {
    fn vec_hash<M: Mixer>(&self, random_state: M, buf: &mut Vec<u64>) -> PolarsResult<()> {
        let column = hashed(self)?;
        column.vec_hash(random_state, buf)
    }

    fn vec_hash_combine<M: Mixer>(&self, random_state: M, hashes: &mut [u64]) -> PolarsResult<()> {
        let column = hashed(self)?;
        column.vec_hash_combine(random_state, hashes)
    }
}

// The flat column that a series holds, whose slots have hashes.
#[tactic(auto, using(crate::proofs::FaultLemmas::fault_by_variant))]
fn hashed(key: &Series) -> PolarsResult<&FlatSeries>
    ensures ok { IfOk result (λ column. column_of column.now ≡ value_of key.now) }
    ensures sound { OnOk result (key_fault (value_of key.now) ≡ None) }
    ensures flat { key_fault (value_of key.now) ≡ None → IsOk result }
    ensures err { IfErr result (λ e. Explains e (key_fault (value_of key.now))) }
{
    key.tell_variant();
    match key {
        Series::Flat(column) => Ok(column),
        _ => Err(refused(key.name())),
    }
}

// That the slots of the column of this name have no hash, or want of memory.
fn refused(name: &PlSmallStr) -> PolarsError
    ensures { Explains result (Some (InvalidOperation OfHash (name_of name.now))) }
{
    match name.try_clone() {
        Ok(name) => PolarsError::InvalidOperation(Operation::Hash, name),
        Err(e) => e,
    }
}

/// The hash of each row of columns of one length: the first column's hashes, and those of each next one
/// put to them, in place of what the list held; and the mixer again. One pass a column. Columns of lists,
/// arrays and structs are refused before any hash is taken, by the name of the first; after a refusal the
/// list holds what it did.
pub fn columns_to_hashes<M: Mixer>(
    keys: &[Column],
    build_hasher: M,
    hashes: &mut Vec<u64>,
) -> PolarsResult<M>
    requires some { 0 < length keys.now }
    requires aligned { let frame = map value_of keys.now in
        all_have_length (frame_height frame) frame ≡ true }
    ensures ok { let seed = M.seed_of build_hasher in
        let hashed = row_hashes seed (M.mix_of build_hasher) (map value_of keys.now) in
        OnOk result (hashes.new.items ≡ hashed) }
    ensures mixer { IfOk result (λ mixer. mixer ≡ build_hasher) }
    ensures sound { OnOk result (first_key_fault (map value_of keys.now) ≡ None) }
    ensures err { IfErr result (λ e. Explains e (first_key_fault (map value_of keys.now))) }
    ensures unchanged { OnErr result (hashes.new.items ≡ hashes.old.items) }
{
    refuse_nested(keys)?;
    let Some((first, later)) = keys.split_first() else {
        unreachable!();
    };
    first.vec_hash(build_hasher, hashes)?;
    combine_all(later, build_hasher, hashes);
    Ok(build_hasher)
}

// Refuses the first column whose slots have no hash.
pub(crate) fn refuse_nested(keys: &[Series]) -> PolarsResult<()>
    ensures ok { OnOk result (first_key_fault (map value_of keys.now) ≡ None) }
    ensures err { IfErr result (λ e. Explains e (first_key_fault (map value_of keys.now))) }
{
    for key in keys {
        hashed(key)?;
    }
    Ok(())
}

// The hashes of the columns, in turn, put to those of the columns before them.
fn combine_all<M: Mixer>(keys: &[Series], mixer: M, hashes: &mut [u64])
    requires aligned { all_have_length (length hashes.old) (map value_of keys.now) ≡ true }
    requires flat { first_key_fault (map value_of keys.now) ≡ None }
    ensures { let frame = map value_of keys.now in
        hashes.new ≡ combined_all (M.seed_of mixer) (M.mix_of mixer) frame hashes.old }
{
    for key in keys {
        combine_key(key, mixer, hashes);
    }
}

// The hashes of a column put to those of the columns before it.
fn combine_key<M: Mixer>(key: &Series, mixer: M, hashes: &mut [u64])
    requires long { length hashes.old ≡ length (value_of key.now).slots }
    requires flat { key_fault (value_of key.now) ≡ None }
    ensures { let column = value_of key.now in
        hashes.new ≡ combined_hashes (M.seed_of mixer) (M.mix_of mixer) column hashes.old }
{
    let Ok(()) = key.vec_hash_combine(mixer, hashes) else {
        unreachable!();
    };
}
