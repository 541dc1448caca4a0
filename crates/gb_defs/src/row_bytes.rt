//! What the definitions of row bytes and row hashes give on worked rows: each clause is an equation that
//! computes.

ghost use Rattle.std.specs.Prelude.{◌≡◌, ◌++◌, [], ◌∷◌, codes, negsuc, pos};
ghost use Rattle.std.specs.Int.{w16, w32};
ghost use Rattle.gb_defs.specs.ColumnType.{ArrayOf, Boolean, Flat, ListOf, Null, Signed, Unsigned, text};
ghost use Rattle.gb_defs.specs.Hash.{combine_of};
ghost use Rattle.gb_defs.specs.RowBytes.{row_bytes, slot_bytes};
ghost use Rattle.gb_defs.specs.Slot.{And, Bytes, End, Items, Nil, Num};
ghost use Rattle.gb_defs.specs.Worked.{four_beside_text, hashed_unmixed, texts_beside, pair_of};

/// Numbers and texts behind their marks.
pub fn slots()
    ensures short { slot_bytes (Flat (Unsigned w16)) (Num (pos 258)) ≡ 1 ∷ 1 ∷ 2 ∷ [] }
    ensures long { slot_bytes (Flat (Unsigned w32)) (Num (pos 1)) ≡ 1 ∷ 0 ∷ 0 ∷ 0 ∷ 1 ∷ [] }
    ensures least { slot_bytes (Flat (Signed w16)) (Num (negsuc 0)) ≡ 1 ∷ 127 ∷ 255 ∷ [] }
    ensures positive { slot_bytes (Flat (Signed w16)) (Num (pos 1)) ≡ 1 ∷ 128 ∷ 1 ∷ [] }
    ensures flag { slot_bytes (Flat Boolean) (Num (pos 0)) ≡ 1 ∷ 0 ∷ [] }
    ensures nothing { slot_bytes (Flat Null) Nil ≡ 0 ∷ [] }
    ensures zero { slot_bytes text (Bytes (codes "a" ++ 0 ∷ [])) ≡ 1 ∷ 97 ∷ 0 ∷ 255 ∷ 0 ∷ 0 ∷ [] }
    ensures empty { slot_bytes text (Bytes []) ≡ 1 ∷ 0 ∷ 0 ∷ [] }
{}

/// Lists and arrays: a list tells its end, an array does not.
pub fn parts()
    ensures list { slot_bytes (ListOf (Flat Boolean)) pair_of ≡ 1 ∷ 1 ∷ 1 ∷ 1 ∷ 1 ∷ 0 ∷ 0 ∷ [] }
    ensures array { slot_bytes (ArrayOf (Flat Boolean) 2) pair_of ≡ 1 ∷ 1 ∷ 1 ∷ 0 ∷ [] }
    ensures none { slot_bytes (ListOf (Flat Boolean)) (Items End) ≡ 1 ∷ 0 ∷ [] }
    ensures missing { slot_bytes (ListOf (Flat Boolean)) Nil ≡ 0 ∷ [] }
{}

/// Rows of several columns. Two rows of texts that are the same when joined differ.
pub fn rows()
    ensures two { row_bytes four_beside_text 0 ≡ 1 ∷ 4 ∷ 1 ∷ 97 ∷ 0 ∷ 0 ∷ [] }
    ensures missing { row_bytes four_beside_text 1 ≡ 0 ∷ 0 ∷ [] }
    ensures first_apart { row_bytes texts_beside 0 ≡ 1 ∷ 97 ∷ 98 ∷ 0 ∷ 0 ∷ 1 ∷ 99 ∷ 0 ∷ 0 ∷ [] }
    ensures second_apart { row_bytes texts_beside 1 ≡ 1 ∷ 97 ∷ 0 ∷ 0 ∷ 1 ∷ 98 ∷ 99 ∷ 0 ∷ 0 ∷ [] }
    ensures no_column { row_bytes [] 0 ≡ [] }
{}

/// Hashes of rows with no mixing. The columns' hashes are put behind each other in two ways.
pub fn hashes()
    ensures one { hashed_unmixed four_beside_text 0 ≡ 208822255889 }
    ensures flag { combine_of (Flat Boolean) 0 0 ≡ 2654435769 }
    ensures zeros { combine_of (Flat (Signed w32)) 0 0 ≡ 0 }
    ensures numbers { combine_of (Flat (Signed w32)) 7 5 ≡ 6611832245136114066 }
{}
