//! The words of numbers of which none is null.

ghost use Rattle.std.specs.Prelude.{◌≡◌, false, IfOk, IfSome};
ghost use Rattle.std.specs.Bool.{OnTrue};
ghost use Rattle.gb_numbers.specs.Native.{is_wide};
ghost use Rattle.gb_paths.specs.PlainWords.{ArePlain, HasPlainMore};

use gb_cols::chunked::ChunkedArray;
use gb_cols::series_trait::SeriesTrait;
use gb_numbers::numeric::{Native, PolarsNumericType};
use gb_values::primitive::{NumberValues, PrimitiveArray};
use std::alloc::AllocError;

/// The numbers of a column as words of 64 bits, None where one is null. One pass over its chunks, up to
/// the first null.
pub(crate) fn plain_words<T: PolarsNumericType>(
    column: &ChunkedArray<NumberValues<T>>,
) -> Result<Option<Vec<u64>>, AllocError>
    requires narrow { is_wide T.Native.width ≡ false }
    ensures { IfOk result (λ found. IfSome found (λ words.
        ArePlain T.Native.flat column.now.slots words.items)) }
{
    let mut words = Vec::with_capacity(column.allocator(), column.len())?;
    let (earlier, last) = column.chunks();
    for chunk in earlier {
        if !push_plain(&mut words, chunk)? {
            return Ok(None);
        }
    }
    if !push_plain(&mut words, last)? {
        return Ok(None);
    }
    Ok(Some(words))
}

// Puts the words of a chunk behind those before. False where a number is null.
fn push_plain<T: PolarsNumericType>(
    words: &mut Vec<u64>,
    chunk: &PrimitiveArray<T>,
) -> Result<bool, AllocError>
    requires narrow { is_wide T.Native.width ≡ false }
    ensures { IfOk result (λ all. OnTrue all
        (HasPlainMore T.Native.flat chunk.now words.old.items words.new.items)) }
{
    let count = chunk.len();
    words.reserve(count)?;
    for i in 0..count {
        let Some(number) = chunk.get(i) else {
            return Ok(false);
        };
        words.push_reserved(number.to_word());
    }
    Ok(true)
}
