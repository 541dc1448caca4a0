//! What the definitions of order and of folds give on worked slots: each clause is an equation that
//! computes.

ghost use Rattle.std.specs.Prelude.{◌≡◌, [], ◌∷◌, codes, false, negsuc, pos, true};
ghost use Rattle.gb_defs.specs.Slot.{And, Bytes, End, Items, Nil, Num};
ghost use Rattle.gb_defs.specs.ColumnType.{Lexical, ListOf, Physical, int64, text};
ghost use Rattle.gb_defs.specs.Order.{ByCode, ByText, InFolds, InRows, below};
ghost use Rattle.gb_defs.specs.Fold.{Count, First, Groups, Implode, Last, Max, Min, NUnique, fold_of};
ghost use Rattle.gb_defs.specs.Worked.{category_of, enum_of, folds};

/// Which of two slots is below the other: the texts of the codes 0 and 1 are b and a.
pub fn orders()
    ensures by_code { below ByCode (category_of Lexical) (Num (pos 0)) (Num (pos 1)) ≡ true }
    ensures in_folds { below InFolds (category_of Lexical) (Num (pos 0)) (Num (pos 1)) ≡ false }
    ensures physical { below InFolds (category_of Physical) (Num (pos 0)) (Num (pos 1)) ≡ true }
    ensures enum_in_folds { below InFolds (enum_of Lexical) (Num (pos 0)) (Num (pos 1)) ≡ true }
    ensures enum_in_rows { below InRows (enum_of Lexical) (Num (pos 0)) (Num (pos 1)) ≡ false }
    ensures physical_rows { below InRows (category_of Physical) (Num (pos 0)) (Num (pos 1)) ≡ true }
    ensures by_text { below ByText (category_of Physical) (Num (pos 1)) (Num (pos 0)) ≡ true }
    ensures numbers { below ByCode int64 (Num (negsuc 0)) (Num (pos 0)) ≡ true }
    ensures front { below ByCode text (Bytes (codes "a")) (Bytes (codes "ab")) ≡ true }
    ensures null_in_a_list { below ByCode (ListOf int64)
        (Items (And Nil End)) (Items (And (Num (pos 0)) End))
        ≡ true }
    ensures shorter_list { below ByCode (ListOf int64) (Items End) (Items (And Nil End)) ≡ true }
    ensures same_list { below ByCode (ListOf int64) (Items (And Nil End)) (Items (And Nil End))
        ≡ false }
{}

/// Folds of 3, null, -1 and 3 again over some of their rows.
#[tactic(auto, unfolding(crate::specs::Fold::fold_picked, crate::specs::Classes::firsts, crate::specs::Classes::is_first))]
pub fn folded()
    ensures least { folds Min (0 ∷ 1 ∷ 2 ∷ []) ≡ Num (negsuc 0) }
    ensures greatest { folds Max (1 ∷ 2 ∷ 3 ∷ []) ≡ Num (pos 3) }
    ensures least_of_null { folds Min (1 ∷ []) ≡ Nil }
    ensures least_text { fold_of Min (category_of Lexical)
        (Num (pos 0) ∷ Num (pos 1) ∷ []) (0 ∷ 1 ∷ [])
        ≡ Num (pos 1) }
    ensures first { folds First (1 ∷ 2 ∷ []) ≡ Nil }
    ensures last { folds Last (1 ∷ 2 ∷ []) ≡ Num (negsuc 0) }
    ensures last_of_none { folds Last [] ≡ Nil }
    ensures distinct { folds NUnique (0 ∷ 1 ∷ 2 ∷ 3 ∷ []) ≡ Num (pos 3) }
    ensures rows { folds (Count true) (0 ∷ 1 ∷ []) ≡ Num (pos 2) }
    ensures valid_rows { folds (Count false) (0 ∷ 1 ∷ []) ≡ Num (pos 1) }
    ensures valid_of_none { folds (Count false) [] ≡ Nil }
    ensures row_list { folds Groups (1 ∷ 3 ∷ [])
        ≡ Items (And (Num (pos 1)) (And (Num (pos 3)) End)) }
    ensures slot_list { folds Implode (1 ∷ 3 ∷ []) ≡ Items (And Nil (And (Num (pos 3)) End)) }
{}
