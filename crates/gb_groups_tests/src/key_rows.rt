ghost use Rattle.std.specs.Prelude.{◌≡◌, ◌<◌};

use crate::paths::texts;
use gb_base::error::PolarsResult;
use gb_base::small_str::PlSmallStr;
use gb_cols::chunked::StringChunked;
use gb_cols::primitive::Int64Chunked;
use gb_hash::byte_rows::ByteRows;
use gb_hash::dirty_hash::SeedMixer;
use gb_hash::key_rows::{KeyRows, Steps};
use gb_hash::list_rows::{ByteChunks, ChunkRows, ListRows};
use gb_hash::num_rows::NumRows;
use gb_hash::slice_rows::SliceRows;
use gb_values::utf8::Text;
use std::alloc::Global;
use std::marker::Brand;
use std::sync::ledger::{Blank, Ledger};
use std::test::Fail;

// The hashes under the seed 7 of null, and of 5 and -1 in one word and in two.
const NULL: u64 = 10369894495938295073;

const FIVE: u64 = 16879849568532771706;

const MINUS_ONE: u64 = 18246602271723342527;

const WIDE_FIVE: u64 = 3518884849563188444;

const WIDE_MINUS_ONE: u64 = 490528790413895549;
// Of 2 ^ 64 in two words.
const HIGH_ONE: u64 = 17069728591328954800;
// Of texts.
const EIGHT_BY: u64 = 9880350877879431617;

const LETTER_A: u64 = 5147673060945396342;

fn mixer() -> SeedMixer {
    SeedMixer::new(7)
}

fn numbers_read(alloc: Global) -> PolarsResult<bool> {
    let keys = [Some(5), None, Some(-1), Some(5)];
    let name = PlSmallStr::from_str(alloc, "n")?;
    let column = Int64Chunked::from_slice_options(alloc, name, &keys)?;
    let rows = NumRows::new(&column, mixer());
    Ok(reads_once(&rows, &keys, &[FIVE, NULL, MINUS_ONE, FIVE]))
}

fn texts_read(alloc: Global) -> PolarsResult<bool> {
    let mut column = StringChunked::new(alloc, PlSmallStr::from_str(alloc, "t")?);
    column.push(Some("eight by"))?;
    column.push(None)?;
    let keys = [Some("eight by"), None];
    let rows = ByteRows::new(&column, mixer());
    Ok(reads_once(&rows, &keys, &[EIGHT_BY, NULL]))
}

// A chunk more, of the texts of a column.
fn push_texts<'a>(texts: &mut ByteChunks<'a, Text>, column: &'a StringChunked) -> PolarsResult<()> {
    if let Some(chunk) = column.all_valid() {
        texts.push(chunk)?;
    }
    Ok(())
}

// Whether the chunks of three columns are rows of texts, of which the second has none.
fn chunks_read(
    alloc: Global,
    first: &StringChunked,
    empty: &StringChunked,
    last: &StringChunked,
) -> PolarsResult<bool> {
    let mut chunks = ByteChunks::new(alloc);
    push_texts(&mut chunks, first)?;
    push_texts(&mut chunks, empty)?;
    push_texts(&mut chunks, last)?;
    let keys = ["eight by".as_bytes(), "a".as_bytes(), "eight by".as_bytes()];
    let rows = ChunkRows::new(&chunks, mixer());
    Ok(reads_once(&rows, &keys, &[EIGHT_BY, LETTER_A, EIGHT_BY]))
}

fn columns_read(alloc: Global) -> PolarsResult<bool> {
    let first = texts(alloc, &[Some("eight by")])?;
    let empty = texts(alloc, &[])?;
    let last = texts(alloc, &[Some("a"), Some("eight by")])?;
    chunks_read(alloc, &first, &empty, &last)
}

fn slices_read() -> bool {
    let wide = [5i128, -1, 1 << 64];
    let small = [5u8, 5];
    reads_once(
        &SliceRows::new(&wide, mixer()),
        &wide,
        &[WIDE_FIVE, WIDE_MINUS_ONE, HIGH_ONE],
    ) && reads_once(&SliceRows::new(&small, mixer()), &small, &[FIVE, FIVE])
}

fn words_read() -> bool {
    let words = [Some(5u64), None, Some(u64::MAX)];
    reads_once(
        &ListRows::new(&words, mixer()),
        &words,
        &[FIVE, NULL, MINUS_ONE],
    )
}

fn wide_words_read() -> bool {
    let words = [Some(5u128), Some(u128::MAX), None];
    reads_once(
        &ListRows::new(&words, mixer()),
        &words,
        &[WIDE_FIVE, WIDE_MINUS_ONE, NULL],
    )
}

fn bytes_read() -> bool {
    let bytes = [None, Some("a".as_bytes())];
    reads_once(&ListRows::new(&bytes, mixer()), &bytes, &[NULL, LETTER_A])
}

#[test]
fn rows_of_columns(rt: HostRuntime) -> Result<(), Fail> {
    assert!(rt; numbers_read(rt.alloc())?);
    assert!(rt; texts_read(rt.alloc())?);
    assert!(rt; columns_read(rt.alloc())?);
    Ok(())
}

#[test]
fn rows_of_lists(rt: HostRuntime) -> Result<(), Fail> {
    assert!(rt; slices_read());
    assert!(rt; words_read());
    assert!(rt; wide_words_read());
    assert!(rt; bytes_read());
    Ok(())
}

// Whether the rows have these keys and hashes, and equal keys equal hashes.
fn reads_as<R: KeyRows, L: Ledger>(rows: &R, keys: &[R::Key], hashes: &[u64], blank: Blank) -> bool
    requires name { blank.name ≡ L.name }
    requires parts { blank.parts ≡ L.parts }
    requires some { 0 < L.parts }
{
    if rows.len() != keys.len() || rows.len() != hashes.len() {
        return false;
    }
    let mut steps: Steps<L> = Steps::new(blank);
    for i in 0..rows.len() {
        let key = rows.key_at(i, &mut steps);
        if key != keys[i] || rows.hash_at(i) != hashes[i] {
            return false;
        }
        for j in 0..i {
            if keys[j] == key && hashes[j] != hashes[i] {
                return false;
            }
        }
    }
    true
}

// The same with a counter of its own.
fn reads_once<R: KeyRows>(rows: &R, keys: &[R::Key], hashes: &[u64]) -> bool {
    reads_as::<R, Brand>(rows, keys, hashes, Blank::new(1))
}
