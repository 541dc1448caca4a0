//! What the definitions of hashes give on worked words: each clause is an equation that computes.

ghost use Rattle.std.specs.Prelude.{◌≡◌, ◌-◌, ◌^◌, [], ◌∷◌, codes, false, negsuc, pos, true};
ghost use Rattle.std.specs.Int.{w32, w64, w128};
ghost use Rattle.gb_defs.specs.Slot.{Nil, Num, Bytes};
ghost use Rattle.gb_defs.specs.Worked.{in_two_partitions, unmixed_text};
ghost use Rattle.gb_defs.specs.Hash.{seed_mix, hash_of, folded_multiply, boost_combine, partition_of};

/// A word mixed, and slots hashed under the seed 7, or with no mixing.
pub fn slots()
    ensures mixed { seed_mix 0x9e3779b97f4a7c15 ≡ 0xe220a8397b1dcdaf }
    ensures null_slot { hash_of w64 7 seed_mix Nil ≡ 10369894495938295073 }
    ensures number { hash_of w32 7 seed_mix (Num (pos 5)) ≡ 16879849568532771706 }
    ensures negative { hash_of w32 7 seed_mix (Num (negsuc 0)) ≡ 18246602271723342527 }
    ensures wide { hash_of w128 7 seed_mix (Num (pos (2 ^ 64))) ≡ 17069728591328954800 }
    ensures empty { unmixed_text (codes "") ≡ 3188347919 }
    ensures text_unmixed { unmixed_text (codes "abcdefghi") ≡ 7523094290187761166 }
    ensures text { hash_of w64 7 seed_mix (Bytes (codes "abcdefghi")) ≡ 9024299621873819995 }
{}

/// Words joined, and the partitions of hashes.
pub fn words()
    ensures both_halves { folded_multiply (2 ^ 64 - 1) (2 ^ 64 - 1) ≡ 2 ^ 64 - 1 }
    ensures high_half { folded_multiply (2 ^ 63) 6 ≡ 3 }
    ensures nothing_joined { boost_combine 0 0 ≡ 2654435769 }
    ensures right_joined { boost_combine 0 4 ≡ 2654435774 }
    ensures left_joined { boost_combine (2 ^ 64 - 1) 1 ≡ 18446744071055115909 }
    ensures second_of_three { partition_of (2 ^ 63) 3 ≡ 1 }
    ensures last_of_four { partition_of (2 ^ 64 - 1) 4 ≡ 3 }
    ensures first_of_seven { partition_of 0 7 ≡ 0 }
{}

/// Groups by partitions: the rows hold the least number, 0 and the least number, whose bits are their
/// hashes.
pub fn partitions()
    ensures by_partition { in_two_partitions false ≡ (1, 1 ∷ []) ∷ (0, 0 ∷ 2 ∷ []) ∷ [] }
    ensures by_first_row { in_two_partitions true ≡ (0, 0 ∷ 2 ∷ []) ∷ (1, 1 ∷ []) ∷ [] }
{}
