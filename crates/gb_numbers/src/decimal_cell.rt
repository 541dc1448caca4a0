//! The number that a table's cell with a decimal point is, in parts of a power of ten, and its text.

ghost use Rattle.std.specs.Prelude.{◌≡◌, ℕ, ◌+◌, ◌*◌, ◌^◌, ◌<◌, ◌≤◌, ◌++◌, true, length, option_map, replicate, IfSome, MatchOption, OnOk};
ghost use Rattle.gb_defs.specs.Cell.{decimal_value};
ghost use Rattle.gb_defs.specs.CellText.{decimal_text};
ghost use Rattle.gb_defs.specs.Slot.{Num};
ghost use Rattle.gb_numbers.specs.Decimal.{minus_of, pointed_digits, pointed_text, FitsShort, GivesRun, IsRun};

use crate::number_cell::without_sign;
use itoa::Buffer;
use std::alloc::AllocError;

// The number of the digits at the front, behind those of a number before, and what stands behind them. Few
// digits need no look at whether they fit.
fn short_run(before: u64, bytes: &[u8]) -> (u64, &[u8])
    requires { FitsShort before bytes.now }
    ensures run { IsRun before bytes.now result.0 result.1.now }
    ensures fits { FitsShort result.0 result.1.now }
{
    let mut value = before;
    let mut left = bytes;
    while let Some((digit, rest)) = left.split_first() {
        if !digit.is_ascii_digit() {
            break;
        }
        value = value * 10 + u64::from(*digit - b'0');
        left = rest;
    }
    (value, left)
}

// The same, None where 128 bits are too few.
fn wide_run(before: u128, bytes: &[u8]) -> Option<(u128, &[u8])>
    ensures { GivesRun before bytes.now result }
{
    let mut value = before;
    let mut left = bytes;
    while let Some((digit, rest)) = left.split_first() {
        if !digit.is_ascii_digit() {
            break;
        }
        value = value
            .checked_mul(10)?
            .checked_add(u128::from(*digit - b'0'))?;
        left = rest;
    }
    Some((value, left))
}

// The same, by the quicker of the two.
fn digit_run(is_short: bool, before: u128, bytes: &[u8]) -> Option<(u128, &[u8])>
    requires { is_short ≡ true → FitsShort before bytes.now }
    ensures run { GivesRun before bytes.now result }
    ensures fits { IfSome result (λ run. is_short ≡ true → FitsShort run.0 run.1.now) }
{
    if !is_short {
        return wide_run(before, bytes);
    }
    let (value, rest) = short_run(before as u64, bytes);
    Some((u128::from(value), rest))
}

// The number that digits with a point among them write, and how many of them stand behind the point.
fn parts_of(bytes: &[u8]) -> Option<(u128, usize)>
    ensures { result ≡ pointed_digits bytes.now }
{
    let is_short = bytes.len() <= 19;
    let (whole, rest) = digit_run(is_short, 0, bytes)?;
    let Some((point, part)) = rest.split_first() else {
        return if bytes.is_empty() {
            None
        } else {
            Some((whole, 0))
        };
    };
    if *point != b'.' || bytes.len() == 1 {
        return None;
    }
    let (value, rest) = digit_run(is_short, whole, part)?;
    if rest.is_empty() {
        Some((value, part.len()))
    } else {
        None
    }
}

// A number times a power of ten, None where 128 bits are too few. It ends soon: no number but zero is
// multiplied more than 38 times.
fn scaled(number: u128, places: usize) -> Option<u128>
    ensures { MatchOption result (2 ^ 128 ≤ number * 10 ^ places) (λ n. n ≡ number * 10 ^ places) }
{
    if number == 0 {
        return Some(0);
    }
    let mut product = number;
    for _ in 0..places {
        product = product.checked_mul(10)?;
    }
    Some(product)
}

/// The number that a decimal cell writes, counted in parts of 10 ^ scale. Nothing is rounded: a digit too
/// many behind the point does not read.
pub fn decimal_number(cell: &[u8], scale: usize) -> Option<i128>
    ensures { option_map (λ n. Num n) result ≡ decimal_value scale cell.now }
{
    let (negative, digits) = without_sign(cell);
    let (number, places) = parts_of(digits)?;
    let magnitude = scaled(number, scale.checked_sub(places)?)?;
    if negative {
        0_i128.checked_sub_unsigned(magnitude)
    } else {
        0_i128.checked_add_unsigned(magnitude)
    }
}

// So many zeros behind what is there.
fn write_zeros(count: usize, to: &mut Vec<u8>) -> Result<(), AllocError>
    ensures { OnOk result (to.new.items ≡ to.old.items ++ replicate count 48) }
{
    to.reserve(count)?;
    to.resize(to.len() + count, b'0')
}

// Digits behind what is there, with a point before so many of them as the scale is, and zeros before them
// where they are too few.
fn write_pointed(digits: &[u8], scale: usize, to: &mut Vec<u8>) -> Result<(), AllocError>
    ensures { OnOk result (to.new.items ≡ to.old.items ++ pointed_text scale digits.now) }
{
    if scale == 0 {
        return to.extend_from_slice(digits);
    }
    if scale < digits.len() {
        let (whole, part) = digits.split_at(digits.len() - scale);
        to.extend_from_slice(whole)?;
        to.push(b'.')?;
        return to.extend_from_slice(part);
    }
    to.extend_from_slice(b"0.")?;
    write_zeros(scale - digits.len(), to)?;
    to.extend_from_slice(digits)
}

// The minus of a number below zero, behind what is there.
fn write_minus(number: i128, to: &mut Vec<u8>) -> Result<(), AllocError>
    ensures { OnOk result (to.new.items ≡ to.old.items ++ minus_of number) }
{
    if number < 0 {
        to.push(b'-')?;
    }
    Ok(())
}

/// The text of a number that counts parts of 10 ^ scale, behind what is there.
pub fn write_decimal(number: i128, scale: usize, to: &mut Vec<u8>) -> Result<(), AllocError>
    ensures { OnOk result (to.new.items ≡ to.old.items ++ decimal_text scale number) }
{
    write_minus(number, to)?;
    let mut digits = Buffer::new();
    write_pointed(digits.format(number.unsigned_abs()).as_bytes(), scale, to)
}

#[cfg(test)]
mod tests {
    use super::*;
    use std::test::Fail;

    #[test]
    fn cells_at_a_scale(rt: HostRuntime) -> Result<(), Fail> {
        let most = "170141183460469231731687303715884105727";
        let least = "-170141183460469231731687303715884105728";
        for (cell, scale, number) in [
            ("-1.05", 2, Some(-105)),
            ("1.", 2, Some(100)),
            ("1.", 0, Some(1)),
            (".5", 2, Some(50)),
            ("+0.5", 2, Some(50)),
            ("1.005", 2, None),
            (".5", 0, None),
            (".", 2, None),
            ("-", 2, None),
            ("", 2, None),
            ("1.2.3", 5, None),
            ("1,5", 2, None),
            ("1.5 ", 2, None),
            ("-0", 2, Some(0)),
            ("123456789.0123456789", 10, Some(1234567890123456789)),
            ("0001234567890.123456789", 9, Some(1234567890123456789)),
            (most, 0, Some(i128::MAX)),
            (least, 0, Some(i128::MIN)),
            ("170141183460469231731687303715884105728", 0, None),
            ("-170141183460469231731687303715884105729", 0, None),
            (
                "-1.70141183460469231731687303715884105728",
                38,
                Some(i128::MIN),
            ),
            ("17", 38, None),
            ("1", usize::MAX, None),
            ("0.0", usize::MAX, Some(0)),
        ] {
            assert_eq!(rt; decimal_number(cell.as_bytes(), scale), number, "{cell}");
        }
        Ok(())
    }

    #[test]
    fn texts_at_a_scale(rt: HostRuntime) -> Result<(), Fail> {
        for (number, scale, text) in [
            (-1, 2, "-0.01"),
            (-105, 2, "-1.05"),
            (100, 2, "1.00"),
            (99, 2, "0.99"),
            (0, 0, "0"),
            (0, 3, "0.000"),
            (-42, 0, "-42"),
            (i128::MIN, 38, "-1.70141183460469231731687303715884105728"),
            (7, 41, "0.00000000000000000000000000000000000000007"),
        ] {
            let mut written = Vec::from_slice(rt.alloc(), b"=")?;
            write_decimal(number, scale, &mut written)?;
            let mut wanted = Vec::from_slice(rt.alloc(), b"=")?;
            wanted.extend_from_slice(text.as_bytes())?;
            assert_eq!(rt; written.as_slice(), wanted.as_slice(), "{text}");
        }
        let mut written = Vec::new(rt.alloc());
        assert!(rt; write_decimal(1, usize::MAX, &mut written).is_err());
        Ok(())
    }
}
