//! What is done with a hash behind its making.

ghost use Rattle.std.specs.Prelude.{◌≡◌, ◌<◌, ◌≤◌};
ghost use Rattle.gb_defs.specs.Hash.{folded_multiply as folded, boost_combine, partition_of};

/// Both halves of the product, joined by xor.
#[inline]
#[tactic(auto, unfolding(gb_defs::specs::Hash::folded_multiply))]
pub fn folded_multiply(a: u64, b: u64) -> u64
    ensures { result ≡ folded a b }
{
    let product = a as u128 * b as u128;
    (product % (1 << 64)) as u64 ^ (product >> 64) as u64
}

/// The hash of a row with one more column: the hash so far, and the hash of the column.
#[inline]
pub fn _boost_hash_combine(l: u64, r: u64) -> u64
    ensures { result ≡ boost_combine l r }
{
    let spread = r
        .wrapping_add(0x9e37_79b9)
        .wrapping_add(l << 6)
        .wrapping_add(r >> 2);
    l ^ spread
}

/// The partition, among n, of the rows with this hash; each takes an equal part of the hashes.
#[inline]
#[tactic(auto, unfolding(gb_defs::specs::Hash::partition_of))]
pub fn hash_to_partition(h: u64, n: usize) -> usize
    requires { 1 ≤ n }
    ensures value { result ≡ partition_of h n }
    ensures below { result < n }
{
    ((h as u128 * n as u128) >> 64) as usize
}
