//! Passes over texts that get codes.

ghost use Rattle.std.specs.Prelude.{◌≡◌, ◌+◌, ◌++◌, ◌≤◌, ◌<◌, ◌∷◌, [], length, map, OnOk};
ghost use Rattle.gb_defs.specs.Table.{coded_slot, texts_after, with_text};
ghost use Rattle.gb_values.specs.Array.{text_slot};

use gb_cols::chunked::StringChunked;
use gb_numbers::numeric::UInt32Type;
use gb_table::text_table::TextTable;
use gb_values::primitive::PrimitiveArray;
use gb_values::utf8::Utf8Array;
use std::alloc::AllocError;

/// The codes of the texts of a column behind the codes before. A text that is new comes last among those
/// known.
pub(super) fn code_column(
    texts: &StringChunked,
    known: &mut TextTable,
    codes: &mut PrimitiveArray<UInt32Type>,
) -> Result<(), AllocError>
    requires { length known.old + length texts.now.slots ≤ 4294967295 }
    ensures known { OnOk result (known.new ≡ texts_after known.old texts.now.slots) }
    ensures codes { OnOk result
        (codes.new ≡ codes.old ++ map (coded_slot known.new) texts.now.slots) }
{
    let (earlier, last) = texts.chunks();
    for chunk in earlier {
        code_texts(chunk, known, codes)?;
    }
    code_texts(last, known, codes)?;
    Ok(())
}

// The same for the texts of a chunk.
fn code_texts(
    texts: &Utf8Array,
    known: &mut TextTable,
    codes: &mut PrimitiveArray<UInt32Type>,
) -> Result<(), AllocError>
    requires { length known.old + length texts.now ≤ 4294967295 }
    ensures known { OnOk result (known.new ≡ texts_after known.old texts.now) }
    ensures codes { OnOk result
        (codes.new ≡ codes.old ++ map (coded_slot known.new) texts.now) }
{
    for i in 0..texts.len() {
        code_text(texts.get(i), known, codes)?;
    }
    Ok(())
}

/// The code of one text more, null for none.
#[inline]
pub(super) fn code_text(
    text: Option<&str>,
    known: &mut TextTable,
    codes: &mut PrimitiveArray<UInt32Type>,
) -> Result<(), AllocError>
    requires { length known.old < 4294967295 }
    ensures known { OnOk result (known.new ≡ with_text known.old (text_slot text.entry)) }
    ensures codes { let slot = coded_slot known.new (text_slot text.entry) in
        OnOk result (codes.new ≡ codes.old ++ slot ∷ []) }
{
    match text {
        Some(text) => codes.push(Some(known.number_of(text)?))?,
        None => codes.push(None)?,
    }
    Ok(())
}
