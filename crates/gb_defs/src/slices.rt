//! What the definitions of a slice give on worked lists.

ghost use Rattle.std.specs.Prelude.{◌≡◌, ℕ, [], ◌∷◌, negsuc, pos};
ghost use Rattle.gb_defs.specs.Slices.{shown, shown_chunks};

/// Slices of 1, 2, 3 and 4, and of chunks of which one is empty.
pub fn slices()
    ensures from_the_end { shown {A = ℕ} (1 ∷ 2 ∷ 3 ∷ 4 ∷ []) (negsuc 2) 2 ≡ 2 ∷ 3 ∷ [] }
    ensures past_the_front { shown {A = ℕ} (1 ∷ 2 ∷ 3 ∷ 4 ∷ []) (negsuc 6) 5 ≡ 1 ∷ 2 ∷ [] }
    ensures past_the_end { shown {A = ℕ} (1 ∷ 2 ∷ 3 ∷ 4 ∷ []) (pos 9) 1 ≡ [] }
    ensures chunks { shown_chunks (2 ∷ 0 ∷ 2 ∷ []) (pos 1) 2 ≡ 1 ∷ 1 ∷ [] }
    ensures no_chunk { shown_chunks (2 ∷ 0 ∷ 2 ∷ []) (pos 4) 1 ≡ 0 ∷ [] }
{}
