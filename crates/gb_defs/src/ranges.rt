//! What the definitions of ranges give on worked lengths.

ghost use Rattle.std.specs.Prelude.{◌≡◌, [], ◌∷◌};
ghost use Rattle.gb_defs.specs.Flat.{ranges_of, starts_from};

/// Ranges that cover a length, and lists one after another.
pub fn ranges()
    ensures last_is_longer { ranges_of 10 3 ≡ (0, 3) ∷ (3, 3) ∷ (6, 4) ∷ [] }
    ensures some_are_empty { ranges_of 1 3 ≡ (0, 0) ∷ (0, 0) ∷ (0, 1) ∷ [] }
    ensures starts { starts_from 0 (2 ∷ 0 ∷ 3 ∷ []) ≡ 0 ∷ 2 ∷ 2 ∷ [] }
{}
