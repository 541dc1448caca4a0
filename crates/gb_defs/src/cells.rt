//! What the definitions give of cells on worked fields: each clause is an equation that computes.

ghost use Rattle.std.specs.Prelude.{◌≡◌, ◌-◌, ◌^◌, [], ◌∷◌, codes, negsuc, pos, None, Some};
ghost use Rattle.std.specs.Int.{w8, w64, w128};
ghost use Rattle.gb_defs.specs.Slot.{And, Bytes, End, Items, Nil, Num};
ghost use Rattle.gb_defs.specs.ColumnType.{ArrayOf, Binary, Boolean, Categorical, Date, Field, Flat};
ghost use Rattle.gb_defs.specs.ColumnType.{ListOf, NoFields, Null, Physical, Signed, StructOf};
ghost use Rattle.gb_defs.specs.ColumnType.{Unsigned, int64, text};
ghost use Rattle.gb_defs.specs.Column.{content};
ghost use Rattle.gb_defs.specs.Table.{read_column};
ghost use Rattle.gb_defs.specs.TypeWord.{type_word};
ghost use Rattle.gb_defs.specs.Worked.{category_of, decimal_of, prints, reads};

/// What a field reads as, by the type of its column.
pub fn read_numbers()
    ensures null { reads int64 (codes "NA") ≡ Some Nil }
    ensures nothing_but_null { reads (Flat Null) (codes "x") ≡ None }
    ensures yes { reads (Flat Boolean) (codes "true") ≡ Some (Num (pos 1)) }
    ensures no { reads (Flat Boolean) (codes "false") ≡ Some (Num (pos 0)) }
    ensures other_case { reads (Flat Boolean) (codes "True") ≡ None }
    ensures greatest_byte { reads (Flat (Unsigned w8)) (codes "+255") ≡ Some (Num (pos 255)) }
    ensures past_a_byte { reads (Flat (Unsigned w8)) (codes "256") ≡ None }
    ensures minus_unsigned { reads (Flat (Unsigned w8)) (codes "-1") ≡ None }
    ensures least_byte { reads (Flat (Signed w8)) (codes "-128") ≡ Some (Num (negsuc 127)) }
    ensures past_least_byte { reads (Flat (Signed w8)) (codes "-129") ≡ None }
    ensures no_digit { reads (Flat (Signed w64)) (codes "+") ≡ None }
    ensures day { reads (Flat Date) (codes "-2147483648") ≡ Some (Num (negsuc (2 ^ 31 - 1))) }
    ensures past_days { reads (Flat Date) (codes "2147483648") ≡ None }
    ensures widest { reads (Flat (Signed w128)) (codes "170141183460469231731687303715884105727")
        ≡ Some (Num (pos (2 ^ 127 - 1))) }
    ensures hundredths { reads (decimal_of 2) (codes "-1.5") ≡ Some (Num (negsuc 149)) }
    ensures no_whole { reads (decimal_of 2) (codes ".5") ≡ Some (Num (pos 50)) }
    ensures point_last { reads (decimal_of 0) (codes "5.") ≡ Some (Num (pos 5)) }
    ensures digit_too_many { reads (decimal_of 2) (codes "1.234") ≡ None }
    ensures point_alone { reads (decimal_of 2) (codes ".") ≡ None }
{}

/// Fields of bytes, texts and categories.
pub fn read_bytes()
    ensures pairs { reads (Flat Binary) (codes "00fF") ≡ Some (Bytes (0 ∷ 255 ∷ [])) }
    ensures no_bytes { reads (Flat Binary) (codes "") ≡ Some (Bytes []) }
    ensures half_a_byte { reads (Flat Binary) (codes "0") ≡ None }
    ensures no_digits { reads (Flat Binary) (codes "0g") ≡ None }
    ensures category { reads (Flat (Categorical None Physical)) (codes "b")
        ≡ Some (Bytes (codes "b")) }
    ensures codes_by_place { content (read_column (codes "c") (Flat (Categorical None Physical))
        (Bytes (codes "b") ∷ Nil ∷ Bytes (codes "a") ∷ Bytes (codes "b") ∷ []))
        ≡ record {
          name = codes "c";
          dtype = category_of Physical;
          slots = Num (pos 0) ∷ Nil ∷ Num (pos 1) ∷ Num (pos 0) ∷ [];
        } }
{}

/// How a slot is printed, and the words of types.
pub fn printed()
    ensures null { prints int64 Nil ≡ codes "NA" }
    ensures yes { prints (Flat Boolean) (Num (pos 1)) ≡ codes "true" }
    ensures hundredths { prints (decimal_of 2) (Num (negsuc 149)) ≡ codes "-1.50" }
    ensures below_one { prints (decimal_of 2) (Num (pos 5)) ≡ codes "0.05" }
    ensures no_scale { prints (decimal_of 0) (Num (pos 7)) ≡ codes "7" }
    ensures pairs { prints (Flat Binary) (Bytes (0 ∷ 171 ∷ [])) ≡ codes "00ab" }
    ensures category { prints (category_of Physical) (Num (pos 1)) ≡ codes "a" }
    ensures list { prints (ListOf int64) (Items (And (Num (negsuc 0)) (And Nil End)))
        ≡ codes "[-1,null]" }
    ensures empty_list { prints (ListOf int64) (Items End) ≡ codes "[]" }
    ensures quoted { prints (ListOf text) (Items (And (Bytes (codes "a\"\\")) End))
        ≡ codes "[\"a\\\"\\\\\"]" }
    ensures parts { prints
        (StructOf (Field (codes "a") (category_of Physical) (Field (codes "b") int64 NoFields)))
        (Items (And (Num (pos 0)) (And (Num (pos 2)) End))) ≡ codes "[\"b\",2]" }
    ensures list_word { type_word (ListOf (decimal_of 2)) ≡ codes "list[dec2]" }
    ensures array_word { type_word (ArrayOf text 3) ≡ codes "array[str;3]" }
    ensures struct_word { let fields = Field (codes "a") int64 (Field (codes "b") text NoFields) in
        type_word (StructOf fields) ≡ codes "struct[i64,str]" }
{}
