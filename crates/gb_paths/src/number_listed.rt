//! The numbers of places by words that are few, by a list with room for each word.

ghost use Rattle.std.specs.Prelude.{◌≡◌, ◌==◌, ◌<◌, ◌≤◌, ◌++◌, ◌∷◌, [], IfOk, OnOk, get_or, if◌then◌else◌, length, replicate, set};
ghost use Rattle.gb_defs.specs.Classes.{rows_below};
ghost use Rattle.gb_defs.specs.Groups.{HasRowNumbers};
ghost use Rattle.gb_paths.specs.Numbering.{AreNumbersUnder};
ghost use Rattle.gb_paths.specs.Words.{AreBelow, same_word};

use crate::row_numbers::RowNumbers;
use gb_base::nullable_idx::IdxSize;
use std::alloc::{AllocError, Global};

// No number. There are fewer groups.
const NONE: u32 = u32::MAX;

/// The numbers of the groups of places with one word, all of which are below a bound: no word is sought.
pub(crate) fn number_listed(
    alloc: Global,
    words: &[u32],
    bound: usize,
) -> Result<RowNumbers, AllocError>
    requires few { HasRowNumbers (length words.now) }
    requires low { AreBelow bound words.now }
    ensures { IfOk result
        (AreNumbersUnder (same_word words.now) (rows_below (length words.now))) }
{
    let mut numbers = no_numbers(alloc, bound)?;
    let mut first = Vec::new(alloc);
    let mut of_rows = Vec::with_capacity(alloc, words.len())?;
    for place in 0..words.len() {
        let word = words[place] as usize;
        let number = number_of(&mut numbers, &mut first, word, place as u32)?;
        of_rows.push_reserved(number);
    }
    Ok(RowNumbers { first, of_rows })
}

// The number of a word: the next one, where it has none, and this place is the first of its group.
#[inline(always)]
fn number_of(
    numbers: &mut Vec<u32>,
    first: &mut Vec<IdxSize>,
    word: usize,
    place: IdxSize,
) -> Result<u32, AllocError>
    requires word { word < length numbers.old.items }
    requires few { length first.old.items ≤ place }
    ensures number { let number = get_or numbers.old.items word 0 in IfOk result (λ found.
        found ≡ (if number == 4294967295 then length first.old.items else number)) }
    ensures numbers { let number = get_or numbers.old.items word 0 in OnOk result (numbers.new.items
        ≡ (if number == 4294967295 then set numbers.old.items word (length first.old.items)
        else numbers.old.items)) }
    ensures first { let number = get_or numbers.old.items word 0 in OnOk result (first.new.items
        ≡ first.old.items ++ (if number == 4294967295 then place ∷ [] else [])) }
{
    let number = numbers[word];
    if number != NONE {
        return Ok(number);
    }
    let next = first.len() as u32;
    first.push(place)?;
    numbers[word] = next;
    Ok(next)
}

fn no_numbers(alloc: Global, count: usize) -> Result<Vec<u32>, AllocError>
    ensures { IfOk result (λ numbers. numbers.items ≡ replicate count 4294967295) }
{
    let mut numbers = Vec::new(alloc);
    numbers.resize(count, NONE)?;
    Ok(numbers)
}
