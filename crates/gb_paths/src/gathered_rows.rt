//! Rows of a list that are numbered by their places in it, with their keys and hashes read ahead.

ghost use Rattle.std.specs.Coded.{Coded-set, coded_list};
ghost use Rattle.std.specs.Prelude.{◌≡◌, ◌<◌, All, IfErr, IfOk, get_or, length, map};
ghost use Rattle.gb_defs.specs.Groups.{AreMembers, HasRowNumbers};
ghost use Rattle.gb_defs.specs.Rows.{AreHashes};
ghost use Rattle.gb_defs.specs.Slot.{slot_code};
ghost use Rattle.gb_base.specs.PlSmallStr.{IsNoMemory};
ghost use Rattle.gb_paths.specs.Gathered.{gathered, gathered_alike};
ghost use Rattle.gb_paths.specs.Numbering.{AreNumbersAmong};

use crate::number_rows::number_all;
use crate::row_hashes::RowHashes;
use crate::row_numbers::RowNumbers;
use gb_base::error::PolarsResult;
use gb_base::nullable_idx::IdxSize;
use gb_groups::row_lists::{ListedRows, Members};
use gb_hash::key_rows::{KeyRows, Steps};
use std::alloc::{AllocError, Global};
use std::marker::Brand;
use std::sync::ledger::{Blank, Ledger};

/// Some rows, each by its place among them. Their keys and hashes are read ahead, in loops so short that the
/// processor waits for many rows at a time; in a search of a table it waits for one.
#[derive(Drop)]
pub struct GatheredRows<'a, R: KeyRows> {
    rows: &'a R,
    members: &'a [IdxSize],
    keys: Vec<R::Key>,
    hashes: Vec<u64>,
    ghost inside: { AreMembers (R.rows rows.now).count members.now },
    ghost keyed: { map R.key_slot keys.items ≡ map (R.rows rows.now).slot members.now } by { Coded-set (coded_list slot_code) _ _ },
    ghost hashed: { hashes.items ≡ map (R.rows rows.now).hash members.now },
}

impl<'a, R: KeyRows> GatheredRows<'a, R> {
    // These rows, by hashes of all rows.
    fn new<H: RowHashes>(
        alloc: Global,
        rows: &'a R,
        members: &'a [IdxSize],
        hashes: &H,
    ) -> PolarsResult<GatheredRows<'a, R>>
        requires members { AreMembers (length (H.hashes hashes.now)) members.now }
        requires hashes { AreHashes (R.rows rows.now) 0 (H.hashes hashes.now) }
        ensures rows { IfOk result (λ some. some.rows.now ≡ rows.now) }
        ensures members { IfOk result (λ some. some.members.now ≡ members.now) }
        ensures err { IfErr result IsNoMemory }
    {
        let keys = read_keys(alloc, rows, members)?;
        let hashes = read_hashes(alloc, hashes, members)?;
        Ok(GatheredRows {
            rows,
            members,
            keys,
            hashes,
        })
    }
}

impl<'a, R: KeyRows> KeyRows for GatheredRows<'a, R> {
    type Key = R::Key;

    ghost rows = { λ some. gathered (R.rows some.rows.now) some.members.now };

    ghost key_slot = { R.key_slot };

    ghost keys_decide = { R.keys_decide };

    ghost hashes_alike = { λ some. gathered_alike (R.rows some.rows.now) some.members.now some.inside (R.hashes_alike some.rows.now) };

    fn len(&self) -> usize {
        self.members.len()
    }

    #[inline(always)]
    fn key_at<L: Ledger>(&self, i: usize, steps: &mut Steps<L>) -> R::Key {
        steps.tick();
        self.keys[i]
    }

    #[inline(always)]
    fn hash_at(&self, i: usize) -> u64 {
        self.hashes[i]
    }
}

// The keys of some rows.
fn read_keys<R: KeyRows>(
    alloc: Global,
    rows: &R,
    members: &[IdxSize],
) -> Result<Vec<R::Key>, AllocError>
    requires inside { All (λ row. row < (R.rows rows.now).count) members.now }
    ensures { IfOk result (λ keys.
        map R.key_slot keys.items ≡ map (R.rows rows.now).slot members.now) }
{
    // The counter is for proofs alone, as in `number_hashed`.
    read_counted::<R, Brand>(alloc, rows, members, Blank::new(1))
}

// The same with a counter of its own.
fn read_counted<R: KeyRows, L: Ledger>(
    alloc: Global,
    rows: &R,
    members: &[IdxSize],
    blank: Blank,
) -> Result<Vec<R::Key>, AllocError>
    requires name { blank.name ≡ L.name }
    requires parts { blank.parts ≡ L.parts }
    requires some { 0 < L.parts }
    requires inside { All (λ row. row < (R.rows rows.now).count) members.now }
    ensures { IfOk result (λ keys.
        map R.key_slot keys.items ≡ map (R.rows rows.now).slot members.now) }
{
    let mut steps: Steps<L> = Steps::new(blank);
    let mut keys = Vec::with_capacity(alloc, members.len())?;
    for place in 0..members.len() {
        keys.push_reserved(rows.key_at(members[place] as usize, &mut steps));
    }
    Ok(keys)
}

// The hashes of some rows among those of all.
fn read_hashes<H: RowHashes>(
    alloc: Global,
    hashes: &H,
    members: &[IdxSize],
) -> Result<Vec<u64>, AllocError>
    requires { All (λ row. row < length (H.hashes hashes.now)) members.now }
    ensures { IfOk result (λ read.
        read.items ≡ map (λ row. get_or (H.hashes hashes.now) row 0) members.now) }
{
    let mut read = Vec::with_capacity(alloc, members.len())?;
    for place in 0..members.len() {
        read.push_reserved(hashes.hash_of(members[place] as usize));
    }
    Ok(read)
}

// The rows at some places.
fn rows_at<M: Members>(
    alloc: Global,
    members: &M,
    places: &[u32],
) -> Result<Vec<IdxSize>, AllocError>
    requires { All (λ place. place < length (M.listed members.now)) places.now }
    ensures { IfOk result (λ rows. rows.items
        ≡ map (λ place. get_or (M.listed members.now) place 0) places.now) }
{
    let mut rows = Vec::with_capacity(alloc, places.len())?;
    for place in places {
        rows.push(members.row_at(*place as usize))?;
    }
    Ok(rows)
}

/// The numbers of the groups of some rows among themselves, by hashes of all rows, for rows that do not follow each
/// other: their keys and hashes are read ahead.
pub(crate) fn number_gathered<R: KeyRows, H: RowHashes>(
    alloc: Global,
    rows: &R,
    members: &[IdxSize],
    hashes: &H,
) -> PolarsResult<RowNumbers>
    requires few { HasRowNumbers (R.rows rows.now).count }
    requires members { AreMembers (length (H.hashes hashes.now)) members.now }
    requires hashes { AreHashes (R.rows rows.now) 0 (H.hashes hashes.now) }
    ensures ok { IfOk result (AreNumbersAmong (R.rows rows.now) members.now) }
    ensures err { IfErr result IsNoMemory }
{
    let some = GatheredRows::new(alloc, rows, members, hashes)?;
    let places = number_all(alloc, &some)?;
    let first = rows_at(alloc, &ListedRows { rows: members }, &places.first)?;
    Ok(RowNumbers {
        first,
        of_rows: places.of_rows,
    })
}
