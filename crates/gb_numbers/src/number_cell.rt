//! The number that a table's cell is, by one pass over its digits.

ghost use Rattle.std.specs.Prelude.{◌≡◌, ◌≤◌, ◌^◌, length, option_map, pos};
ghost use Rattle.std.specs.Int.{w64, w128};
ghost use Rattle.std.specs.Str.Parse.{starts_with_minus, without_leading_plus, without_leading_sign};
ghost use Rattle.gb_defs.specs.Slot.{Num};
ghost use Rattle.gb_defs.specs.Cell.{magnitude, magnitude_within, signed_value, unsigned_value};

/// Whether a minus stands in front, and what stands behind a sign.
#[inline(always)]
pub(crate) fn without_sign(cell: &[u8]) -> (bool, &[u8])
    ensures negative { result.0 ≡ starts_with_minus cell.now }
    ensures rest { result.1.now ≡ without_leading_sign cell.now }
{
    if let Some((first, rest)) = cell.split_first() {
        if *first == b'-' {
            return (true, rest);
        }
        if *first == b'+' {
            return (false, rest);
        }
    }
    (false, cell)
}

// What stands behind a plus.
#[inline(always)]
fn without_plus(cell: &[u8]) -> &[u8]
    ensures { result.now ≡ without_leading_plus cell.now }
{
    match cell.split_first() {
        Some((b'+', rest)) => rest,
        _ => cell,
    }
}

// The number that at most 19 digits write, None where a byte is no digit.
#[inline(always)]
fn short_magnitude(digits: &[u8]) -> Option<u64>
    requires { length digits.now ≤ 19 }
    ensures { result ≡ magnitude digits.now }
{
    let mut value: u64 = 0;
    for digit in digits {
        if !digit.is_ascii_digit() {
            return None;
        }
        value = value * 10 + u64::from(*digit - b'0');
    }
    Some(value)
}

// The number that digits write, None where a byte is no digit or 64 bits are too few.
fn long_magnitude(digits: &[u8]) -> Option<u64>
    ensures { result ≡ magnitude digits.now }
{
    let mut value: u64 = 0;
    for digit in digits {
        if !digit.is_ascii_digit() {
            return None;
        }
        value = value
            .checked_mul(10)?
            .checked_add(u64::from(*digit - b'0'))?;
    }
    Some(value)
}

// The same. Few digits need no look at whether they fit.
#[inline(always)]
fn magnitude_of(digits: &[u8]) -> Option<u64>
    ensures { result ≡ magnitude digits.now }
{
    if digits.len() <= 19 {
        return short_magnitude(digits);
    }
    long_magnitude(digits)
}

/// The number of 64 bits that a cell is, with an optional sign.
#[inline(always)]
pub(crate) fn signed_number(cell: &[u8]) -> Option<i64>
    ensures { option_map (λ n. Num n) result ≡ signed_value w64 cell.now }
{
    let (negative, digits) = without_sign(cell);
    if digits.is_empty() {
        return None;
    }
    let magnitude = magnitude_of(digits)?;
    if negative {
        0_i64.checked_sub_unsigned(magnitude)
    } else {
        0_i64.checked_add_unsigned(magnitude)
    }
}

/// The number of 64 bits that a cell is, with an optional plus.
#[inline(always)]
pub(crate) fn unsigned_number(cell: &[u8]) -> Option<u64>
    ensures { option_map (λ n. Num (pos n)) result ≡ unsigned_value w64 cell.now }
{
    let digits = without_plus(cell);
    if digits.is_empty() {
        return None;
    }
    magnitude_of(digits)
}

// The number that digits write, None where a byte is no digit or 128 bits are too few.
fn wide_magnitude(digits: &[u8]) -> Option<u128>
    ensures { result ≡ magnitude_within (2 ^ 128) digits.now }
{
    let mut value: u128 = 0;
    for digit in digits {
        if !digit.is_ascii_digit() {
            return None;
        }
        value = value
            .checked_mul(10)?
            .checked_add(u128::from(*digit - b'0'))?;
    }
    Some(value)
}

/// The number of 128 bits that a cell is, with an optional sign.
pub(crate) fn signed_wide(cell: &[u8]) -> Option<i128>
    ensures { option_map (λ n. Num n) result ≡ signed_value w128 cell.now }
{
    let (negative, digits) = without_sign(cell);
    if digits.is_empty() {
        return None;
    }
    let magnitude = wide_magnitude(digits)?;
    if negative {
        0_i128.checked_sub_unsigned(magnitude)
    } else {
        0_i128.checked_add_unsigned(magnitude)
    }
}

/// The number of 128 bits that a cell is, with an optional plus.
pub(crate) fn unsigned_wide(cell: &[u8]) -> Option<u128>
    ensures { option_map (λ n. Num (pos n)) result ≡ unsigned_value w128 cell.now }
{
    let digits = without_plus(cell);
    if digits.is_empty() {
        return None;
    }
    wide_magnitude(digits)
}
