//! What the definitions of paths give on worked keys: each clause is an equation that computes.

ghost use Rattle.std.specs.Prelude.{◌≡◌, [], ◌∷◌, codes, false, true};
ghost use Rattle.gb_defs.specs.Slot.{Bytes};
ghost use Rattle.gb_defs.specs.ColumnType.{Flat, Null, ListOf, int64, text};
ghost use Rattle.gb_defs.specs.Column.{Ascending, Descending, fresh_column};
ghost use Rattle.gb_defs.specs.Path.{Nulls, Perfect, Sorted, Table, Threaded, path_of};
ghost use Rattle.gb_defs.specs.Worked.{b_and_a, flagged_as, nulls_of, path_by};

/// The path of a key with no flag.
pub fn plain_keys()
    ensures text_key { path_by 2 (nulls_of text 0) ≡ Threaded }
    ensures long_number_key { path_by 2 (nulls_of int64 3) ≡ Threaded }
    ensures short_number_key { path_by 2 (nulls_of int64 2) ≡ Table }
    ensures one_worker { path_by 1 (nulls_of text 3) ≡ Table }
    ensures not_asked { path_of (nulls_of text 3) false 2 2 ≡ Table }
    ensures null_key { path_by 2 (nulls_of (Flat Null) 3) ≡ Nulls }
    ensures list_key { path_by 2 (nulls_of (ListOf int64) 0) ≡ Threaded }
{}

/// The path of a key that bears a flag.
pub fn flagged_keys()
    ensures numbers { path_by 2 (flagged_as Ascending (nulls_of int64 3)) ≡ Sorted }
    ensures texts { let key = fresh_column [] text (Bytes (codes "a") ∷ []) in
        path_by 2 (flagged_as Descending key) ≡ Sorted }
    ensures texts_and_null { path_by 2 (flagged_as Ascending (nulls_of text 3)) ≡ Threaded }
    ensures unused_codes { path_by 2 (nulls_of b_and_a 2) ≡ Table }
    ensures used_codes { path_by 2 (record (nulls_of b_and_a 2) { all_used = true }) ≡ Perfect }
    ensures no_rows { path_by 2 (nulls_of b_and_a 0) ≡ Perfect }
    ensures codes_in_order { path_by 2 (flagged_as Ascending (nulls_of b_and_a 2)) ≡ Sorted }
{}
