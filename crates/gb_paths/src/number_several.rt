//! The numbers of rows' groups by several keys: the numbers by each key alone, as the digits of one word.

ghost use Rattle.std.specs.Prelude.{◌≡◌, ℕ, ◌*◌, ◌+◌, ◌++◌, ◌<◌, ◌≤◌, All, Bool, IfErr, IfOk, IfSome, get_or, length, replicate};
ghost use Rattle.std.specs.Cmp.{IsEquivalence};
ghost use Rattle.gb_defs.specs.Classes.{agree_by, rows_below};
ghost use Rattle.gb_defs.specs.Column.{Frame, frame_height};
ghost use Rattle.gb_defs.specs.Groups.{HasRowNumbers};
ghost use Rattle.gb_base.specs.PlSmallStr.{IsNoMemory};
ghost use Rattle.gb_base.specs.Pool.{seed_of, workers_of};
ghost use Rattle.gb_rows.specs.Lent.{keys_in};
ghost use Rattle.gb_rows.specs.Rows.{AreOfOneLength};
ghost use Rattle.gb_series.specs.Series.{value_of};
ghost use Rattle.gb_paths.specs.Keys.{HasValues, rows_of_keys};
ghost use Rattle.gb_paths.specs.Numbering.{AreNumbersAmong, AreNumbersUnder, both_agree};
ghost use Rattle.gb_paths.specs.Packed.{AreDigits, HasKeys, HasWords, HaveDigits, IsKeyOf, IsNumberedBy, IsPacked, NumbersKey, words_in};
ghost use Rattle.gb_paths.specs.Tuples.{slots_of};
ghost use Rattle.gb_paths.specs.Words.{AreBelow, same_word};

use crate::classes::number_keys;
use crate::keys::{KeyColumn, Keys, with_rows};
use crate::number_listed::number_listed;
use crate::number_rows::{has_many_groups, number_rows};
use crate::row_numbers::RowNumbers;
use gb_base::error::PolarsResult;
use gb_base::pool::Pool;
use gb_cols::series_trait::SeriesTrait;
use gb_hash::dirty_hash::SeedMixer;
use gb_hash::list_rows::{ChunkRows, ListRows};
use gb_hash::slice_rows::SliceRows;
use gb_series::series::Series;
use std::alloc::{AllocError, Global};
use std::thread::{self, Threads};

// A list of so many words stays near.
const LISTED_WORDS: u64 = 262_144;

// A word of each row, in as little room as they fit.
#[derive(Drop)]
enum Words {
    /// No digits: so many words that are zero.
    None(usize),
    Narrow(Vec<u32>),
    Wide(Vec<u64>),
}

// A word of each row, below a bound: rows that agree have one word, and others do not.
#[derive(Drop)]
struct PackedRows {
    words: Words,
    below: u64,
}

/// The numbers of the groups of rows that hold one slot in each key. As many keys are read at a time as there are
/// workers. None where by one of them alone there are likely about as many groups as rows: then the bytes of rows are
/// made sooner than so many numbers.
pub(crate) fn number_several<T: Threads + Sync>(
    rt: &T,
    alloc: Global,
    keys: &[&Series],
    pool: &Pool,
) -> PolarsResult<Option<RowNumbers>>
    requires some { 0 < length keys.now }
    requires aligned { AreOfOneLength (keys_in keys.now) }
    requires few { HasRowNumbers (frame_height (keys_in keys.now)) }
    requires valued { All HasValues (keys_in keys.now) }
    ensures ok { let keys = keys_in keys.now in IfOk result (λ found. IfSome found
        (AreNumbersUnder (agree_by (slots_of keys)) (rows_below (frame_height keys)))) }
    ensures err { IfErr result IsNoMemory }
{
    let Some(packed) = pack_keys(rt, alloc, keys, pool)? else {
        return Ok(None);
    };
    let numbers = number_words(rt, alloc, &packed, pool)?;
    Ok(Some(numbers))
}

// The words of the rows by keys.
fn pack_keys<T: Threads + Sync>(
    rt: &T,
    alloc: Global,
    keys: &[&Series],
    pool: &Pool,
) -> PolarsResult<Option<PackedRows>>
    requires some { 0 < length keys.now }
    requires aligned { AreOfOneLength (keys_in keys.now) }
    requires few { HasRowNumbers (frame_height (keys_in keys.now)) }
    requires valued { All HasValues (keys_in keys.now) }
    ensures ok { let keys = keys_in keys.now in IfOk result (λ found. IfSome found
        (IsPacked (agree_by (slots_of keys)) (rows_below (frame_height keys)))) }
    ensures err { IfErr result IsNoMemory }
{
    let mut packed = PackedRows {
        words: Words::None(keys[0].len()),
        below: 1,
    };
    let mut place = 0;
    while place < keys.len() {
        let to = keys.len().min(place + pool.workers());
        match pack_round(rt, alloc, &keys[place..to], packed, pool)? {
            Some(more) => packed = more,
            None => return Ok(None),
        }
        place = to;
    }
    Ok(Some(packed))
}

// The words of the rows with their numbers by some keys more, each of which is read by a thread of its own, where there
// are several.
fn pack_round<T: Threads + Sync>(
    rt: &T,
    alloc: Global,
    keys: &[&Series],
    mut packed: PackedRows,
    pool: &Pool,
) -> PolarsResult<Option<PackedRows>>
    requires some { 0 < length keys.now }
    requires workers { length keys.now ≤ workers_of pool.now }
    requires few { HasRowNumbers (length (words_in packed.words)) }
    requires low { AreBelow packed.below (words_in packed.words) }
    requires keyed { All (IsKeyOf (length (words_in packed.words))) (keys_in keys.now) }
    ensures ok { let rows = rows_below (length (words_in packed.words)) in (before : Frame)
        → IsPacked (agree_by (slots_of before)) rows packed → IfOk result (λ found.
        IfSome found (IsPacked (agree_by (slots_of (before ++ keys_in keys.now))) rows)) }
    ensures err { IfErr result IsNoMemory }
{
    // Two shares of a key's rows for each of its workers: one that is held up is not waited for long.
    let shares = pool.workers().min(pool.workers() * 2 / keys.len());
    let each = Pool::new(shares, 1, 1, 1, pool.seed());
    let number = |k: usize| -> PolarsResult<Option<RowNumbers>>
        requires { (k < length keys.now) × All HasKeys (keys_in keys.now) }
        ensures { NumbersKey keys.entry.now k result }
    { number_key(rt, alloc, keys[k], &each) };
    let found = thread::map_indices(rt, alloc, keys.len(), &number)?;
    for numbers in found {
        let Some(next) = numbers? else {
            return Ok(None);
        };
        match pack_more(rt, alloc, packed, next, pool)? {
            Some(more) => packed = more,
            None => return Ok(None),
        }
    }
    Ok(Some(packed))
}

// The numbers of the groups of a key's rows, unless there are likely about as many groups as rows.
fn number_key<T: Threads + Sync>(
    rt: &T,
    alloc: Global,
    key: &Series,
    pool: &Pool,
) -> PolarsResult<Option<RowNumbers>>
    requires { HasKeys (value_of key.now) }
    ensures ok { IfOk result (IsNumberedBy (value_of key.now)) }
    ensures err { IfErr result IsNoMemory }
{
    match key.keys()? {
        Some(keys) => number_form(rt, alloc, &keys, pool),
        None => unreachable!(),
    }
}

// The same by keys in any form.
fn number_form<T: Threads + Sync>(
    rt: &T,
    alloc: Global,
    keys: &Keys<'_>,
    pool: &Pool,
) -> PolarsResult<Option<RowNumbers>>
    requires few { HasRowNumbers (rows_of_keys (seed_of pool.now) keys.now).count }
    ensures ok { let rows = rows_of_keys (seed_of pool.now) keys.now in IfOk result (λ found.
        IfSome found (AreNumbersAmong rows (rows_below rows.count))) }
    ensures err { IfErr result IsNoMemory }
{
    if have_many_groups(alloc, keys, pool.seed())? {
        return Ok(None);
    }
    Ok(Some(number_keys(rt, alloc, keys, pool)?))
}

// Whether there are likely about as many groups as rows. Bytes of rows are not asked.
fn have_many_groups(alloc: Global, keys: &Keys<'_>, seed: u64) -> PolarsResult<bool>
    requires few { HasRowNumbers (rows_of_keys seed keys.now).count }
    ensures err { IfErr result IsNoMemory }
{
    let mixer = SeedMixer::new(seed);
    with_rows!(
        keys, mixer,
        rows => has_many_groups(alloc, &rows),
        _bytes => Ok(false)
    )
}

// The words of rows with their numbers by one key more for their last digits. Words that have no room for these are
// numbered first: numbers are small.
fn pack_more<T: Threads + Sync>(
    rt: &T,
    alloc: Global,
    packed: PackedRows,
    next: RowNumbers,
    pool: &Pool,
) -> PolarsResult<Option<PackedRows>>
    requires few { HasRowNumbers (length (words_in packed.words)) }
    requires low { AreBelow packed.below (words_in packed.words) }
    requires long { length next.of_rows.items ≡ length (words_in packed.words) }
    ensures ok { let rows = rows_below (length (words_in packed.words)) in (a b : ℕ → ℕ → Bool)
        → IsEquivalence a → IsEquivalence b → IsPacked a rows packed → AreNumbersUnder b rows next
        → IfOk result (λ found. IfSome found (IsPacked (both_agree a b) rows)) }
    ensures words { IfOk result (λ found.
        IfSome found (HasWords (length (words_in packed.words)))) }
    ensures err { IfErr result IsNoMemory }
{
    let base = next.first.len() as u64;
    if let Some(below) = packed.below.checked_mul(base) {
        let more = with_digits(rt, alloc, packed, next, below, pool.workers())?;
        return Ok(Some(more));
    }
    let numbers = number_words(rt, alloc, &packed, pool)?;
    let fewer = pack_numbers(numbers);
    match fewer.below.checked_mul(base) {
        Some(below) => {
            let more = with_digits(rt, alloc, fewer, next, below, pool.workers())?;
            Ok(Some(more))
        }
        None => Ok(None),
    }
}

// Numbers as words.
fn pack_numbers(numbers: RowNumbers) -> PackedRows
    ensures words { words_in result.words ≡ numbers.of_rows.items }
    ensures below { result.below ≡ length numbers.first.items }
{
    let RowNumbers { first, of_rows } = numbers;
    PackedRows {
        words: Words::Narrow(of_rows),
        below: first.len() as u64,
    }
}

// The words with numbers for their last digits, which are below a bound then.
fn with_digits<T: Threads + Sync>(
    rt: &T,
    alloc: Global,
    packed: PackedRows,
    next: RowNumbers,
    below: u64,
    workers: usize,
) -> Result<PackedRows, AllocError>
    requires some { 0 < workers }
    requires low { AreBelow packed.below (words_in packed.words) }
    requires room { below ≡ packed.below * length next.first.items }
    requires long { length next.of_rows.items ≡ length (words_in packed.words) }
    ensures below { IfOk result (λ more. more.below ≡ below) }
    ensures digits { IfOk result (λ more. HaveDigits (length next.first.items)
        (words_in packed.words) next.of_rows.items (words_in more.words)) }
{
    let base = next.first.len() as u64;
    let words = match packed.words {
        Words::None(_) => Words::Narrow(next.of_rows),
        Words::Narrow(words) => more_digits(rt, alloc, words, &next.of_rows, base, below, workers)?,
        Words::Wide(words) => Words::Wide(wide_digits(rt, words, &next.of_rows, base, workers)),
    };
    Ok(PackedRows { words, below })
}

// Narrow words, each with a digit behind its own: wide ones where these are not below so much.
fn more_digits<T: Threads + Sync>(
    rt: &T,
    alloc: Global,
    words: Vec<u32>,
    digits: &[u32],
    base: u64,
    below: u64,
    workers: usize,
) -> Result<Words, AllocError>
    requires some { 0 < workers }
    requires many { length digits.now ≡ length words.items }
    requires room { AreDigits below base words.items digits.now }
    ensures { IfOk result (λ more. HaveDigits base words.items digits.now (words_in more)) }
{
    if below <= 4_294_967_296 {
        return Ok(Words::Narrow(narrow_digits(rt, words, digits, base, workers)));
    }
    let wide = words_of(alloc, &words)?;
    Ok(Words::Wide(wide_digits(rt, wide, digits, base, workers)))
}

fn words_of(alloc: Global, numbers: &[u32]) -> Result<Vec<u64>, AllocError>
    ensures { IfOk result (λ words. words.items ≡ numbers.now) }
{
    let mut words = Vec::with_capacity(alloc, numbers.len())?;
    for place in 0..numbers.len() {
        words.push_reserved(u64::from(numbers[place]));
    }
    Ok(words)
}

// Puts a digit behind those of each word.
fn narrow_digits<T: Threads + Sync>(
    rt: &T,
    mut words: Vec<u32>,
    digits: &[u32],
    base: u64,
    workers: usize,
) -> Vec<u32>
    requires some { 0 < workers }
    requires many { length digits.now ≡ length words.items }
    requires room { AreDigits 4294967296 base words.items digits.now }
    ensures { HaveDigits base words.items digits.now result.items }
{
    let push = |place: usize, word: &mut u32|
        requires { (place < length digits.now)
            × (word.now * base + get_or digits.now place 0 ≤ 4294967295) }
        ensures { word.exit.now
            ≡ word.entry.now * base + get_or digits.entry.now place 0 }
    { *word = (u64::from(*word) * base + u64::from(digits[place])) as u32 };
    thread::for_each_mut(rt, &mut words, workers, &push);
    words
}

fn wide_digits<T: Threads + Sync>(
    rt: &T,
    mut words: Vec<u64>,
    digits: &[u32],
    base: u64,
    workers: usize,
) -> Vec<u64>
    requires some { 0 < workers }
    requires many { length digits.now ≡ length words.items }
    requires room { AreDigits 18446744073709551616 base words.items digits.now }
    ensures { HaveDigits base words.items digits.now result.items }
{
    let push = |place: usize, word: &mut u64|
        requires { (place < length digits.now)
            × (word.now * base + get_or digits.now place 0 ≤ 18446744073709551615) }
        ensures { word.exit.now
            ≡ word.entry.now * base + get_or digits.entry.now place 0 }
    { *word = *word * base + u64::from(digits[place]) };
    thread::for_each_mut(rt, &mut words, workers, &push);
    words
}

// The numbers of places by the words that stand there.
#[tactic(auto, using(crate::proofs::PackLemmas::words_few))]
fn number_words<T: Threads + Sync>(
    rt: &T,
    alloc: Global,
    packed: &PackedRows,
    pool: &Pool,
) -> PolarsResult<RowNumbers>
    requires few { HasRowNumbers (length (words_in packed.now.words)) }
    requires low { AreBelow packed.now.below (words_in packed.now.words) }
    ensures ok { let words = words_in packed.now.words in
        IfOk result (AreNumbersUnder (same_word words) (rows_below (length words))) }
    ensures err { IfErr result IsNoMemory }
{
    match &packed.words {
        Words::None(rows) => {
            let words = no_digits(alloc, *rows)?;
            number_narrow(rt, alloc, &words, 1, pool)
        }
        Words::Narrow(words) => number_narrow(rt, alloc, words, packed.below, pool),
        Words::Wide(words) => {
            let rows = SliceRows::new(words.as_slice(), SeedMixer::new(pool.seed()));
            number_rows(rt, alloc, &rows, pool)
        }
    }
}

fn no_digits(alloc: Global, rows: usize) -> Result<Vec<u32>, AllocError>
    ensures { IfOk result (λ words. words.items ≡ replicate rows 0) }
{
    let mut words = Vec::new(alloc);
    words.resize(rows, 0)?;
    Ok(words)
}

// The same by narrow words: by a list with room for each word, where these are few.
#[tactic(auto, using(crate::proofs::PackLemmas::words_few))]
fn number_narrow<T: Threads + Sync>(
    rt: &T,
    alloc: Global,
    words: &[u32],
    below: u64,
    pool: &Pool,
) -> PolarsResult<RowNumbers>
    requires few { HasRowNumbers (length words.now) }
    requires low { AreBelow below words.now }
    ensures ok { IfOk result
        (AreNumbersUnder (same_word words.now) (rows_below (length words.now))) }
    ensures err { IfErr result IsNoMemory }
{
    if below <= LISTED_WORDS && below < words.len() as u64 / 4 {
        let numbers = number_listed(alloc, words, below as usize)?;
        return Ok(numbers);
    }
    let rows = SliceRows::new(words, SeedMixer::new(pool.seed()));
    let numbers = number_rows(rt, alloc, &rows, pool)?;
    Ok(numbers)
}
