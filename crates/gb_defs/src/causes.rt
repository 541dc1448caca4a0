//! Why the definitions refuse a grouping, on worked frames: each clause is an equation that computes.

ghost use Rattle.std.specs.Prelude.{◌≡◌, [], ◌∷◌, codes, true, None, Some};
ghost use Rattle.gb_defs.specs.ColumnType.{Flat, Null};
ghost use Rattle.gb_defs.specs.Fault.{ColumnNotFound, ComputeError, Duplicate, InvalidOperation, OfMin};
ghost use Rattle.gb_defs.specs.Fault.{OfSum, ShapeMismatch, TooManyRows, fault, rows_fault, unfit_operation};
ghost use Rattle.gb_defs.specs.Fold.{Count, Groups, Min, Sum};
ghost use Rattle.gb_defs.specs.Worked.{key_of, one_row};

/// Each cause, and which comes first where several stand.
#[tactic(auto, unfolding(crate::specs::Fault::fault))]
pub fn causes()
    ensures none { fault one_row (key_of 1 ∷ []) ((codes "v", Count true) ∷ []) ≡ None }
    ensures no_key { fault one_row [] [] ≡ Some ComputeError }
    ensures other_shape { fault one_row (key_of 2 ∷ []) ((codes "v", Sum) ∷ [])
        ≡ Some ShapeMismatch }
    ensures most_rows { rows_fault 4294967295 ≡ None }
    ensures too_many_rows { rows_fault 4294967296 ≡ Some (TooManyRows 4294967296) }
    ensures missing { fault one_row (key_of 1 ∷ []) ((codes "v", Sum) ∷ (codes "w", Sum) ∷ [])
        ≡ Some (ColumnNotFound (codes "w")) }
    ensures row_lists_miss_nothing { fault one_row (key_of 1 ∷ []) (([], Groups) ∷ []) ≡ None }
    ensures text_sum { fault one_row (key_of 1 ∷ []) ((codes "v", Sum) ∷ [])
        ≡ Some (InvalidOperation OfSum (codes "v")) }
    ensures null_min { unfit_operation Min (Flat Null) ≡ Some OfMin }
    ensures repeated { fault one_row (key_of 1 ∷ key_of 1 ∷ []) [] ≡ Some (Duplicate (codes "k")) }
{}
