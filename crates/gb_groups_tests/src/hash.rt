use gb_hash::combine::{_boost_hash_combine, folded_multiply, hash_to_partition};
use gb_hash::dirty_hash::{DirtyHash, Mixer, PlSeedableRandomStateQuality, SeedMixer, hash_text};
use gb_hash::id_hasher::IdHasher;
use gb_numbers::numeric::Native;
use std::test::Fail;

#[test]
fn hashes_joined(rt: HostRuntime) -> Result<(), Fail> {
    let joined = [
        (0, 0, 2654435769),
        (0, 4, 2654435774),
        (u64::MAX, 1, 18446744071055115909),
    ];
    for (l, r, wanted) in joined {
        assert_eq!(rt; _boost_hash_combine(l, r), wanted, "{l} and {r}");
    }
    let multiplied = [
        (3, 5, 15),
        (1 << 32, 1 << 32, 1),
        (1 << 63, 6, 3),
        (u64::MAX, 2, u64::MAX),
        (u64::MAX, u64::MAX, u64::MAX),
    ];
    for (a, b, wanted) in multiplied {
        assert_eq!(rt; folded_multiply(a, b), wanted, "{a} times {b}");
    }
    Ok(())
}

#[test]
fn partitions(rt: HostRuntime) -> Result<(), Fail> {
    assert_eq!(rt; hash_to_partition(1 << 63, 3), 1);
    assert_eq!(rt; hash_to_partition(u64::MAX, 4), 3);
    assert_eq!(rt; hash_to_partition(0, 7), 0);
    Ok(())
}

#[test]
fn identity(rt: HostRuntime) -> Result<(), Fail> {
    let mut hasher = IdHasher::default();
    assert_eq!(rt; hasher.finish(), IdHasher::new().finish());
    assert_eq!(rt; hasher.finish(), 0);
    hasher.write_u32(7);
    assert_eq!(rt; hasher.finish(), 7);
    hasher.write_u64(u64::MAX);
    assert_eq!(rt; hasher.finish(), u64::MAX);
    hasher.write_i64(-2);
    assert_eq!(rt; hasher.finish(), 18446744073709551614);
    hasher.write_i32(-1);
    assert_eq!(rt; hasher.finish(), 18446744073709551615);
    Ok(())
}

// The hash of a number under the seed 7.
fn hash_of<N: Native>(number: N) -> u64 {
    let mixer: PlSeedableRandomStateQuality = SeedMixer::new(7);
    number.dirty_hash(&mixer)
}

#[test]
fn words_are_mixed(rt: HostRuntime) -> Result<(), Fail> {
    assert_eq!(rt;
        SeedMixer::new(7).mix(0x9e37_79b9_7f4a_7c15),
        0xe220_a839_7b1d_cdaf
    );
    Ok(())
}

#[test]
fn numbers_with_no_sign(rt: HostRuntime) -> Result<(), Fail> {
    let five = 16879849568532771706;
    assert_eq!(rt; (hash_of(5u8), hash_of(5u16)), (five, five));
    assert_eq!(rt; (hash_of(5u32), hash_of(5u64)), (five, five));
    assert_eq!(rt; hash_of(1u128 << 64), 17069728591328954800);
    Ok(())
}

#[test]
fn numbers_with_a_sign(rt: HostRuntime) -> Result<(), Fail> {
    let minus_one = 18246602271723342527;
    assert_eq!(rt; (hash_of(-1i8), hash_of(-1i16)), (minus_one, minus_one));
    assert_eq!(rt; (hash_of(-1i32), hash_of(-1i64)), (minus_one, minus_one));
    assert_eq!(rt; hash_of(-1i128), 490528790413895549);
    Ok(())
}

#[test]
fn texts(rt: HostRuntime) -> Result<(), Fail> {
    let hash = hash_text(&SeedMixer::new(7), "a".as_bytes());
    assert_eq!(rt; hash, 5147673060945396342);
    Ok(())
}
