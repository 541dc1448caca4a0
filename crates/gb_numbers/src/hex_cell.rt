//! The bytes that a table's cell writes as pairs of hexadecimal digits, and their text.

ghost use Rattle.std.specs.Prelude.{◌≡◌, ℕ, ◌+◌, ◌/◌, ◌<◌, ◌≤◌, ◌++◌, length, is_some, option_map, take, vec_capacity, vec_len, IfOk, IfSome, OnErr, OnOk, if◌then◌else◌};
ghost use Rattle.std.specs.Bool.{OnFalse};
ghost use Rattle.std.specs.Char.{digit_value, is_ascii_hexdigit};
ghost use Rattle.gb_defs.specs.Cell.{hexadecimal};
ghost use Rattle.gb_defs.specs.CellText.{hex_digit, hexadecimal_text};
ghost use Rattle.gb_numbers.specs.Taken.{if_taken};

use std::alloc::AllocError;

// The value of a digit of either case, None of another byte.
#[inline]
fn value_of(digit: u8) -> Option<u8>
    ensures value { result ≡ (if is_ascii_hexdigit digit then Some (digit_value digit) else None) }
    ensures below { IfSome result (λ value. value < 16) }
{
    match digit {
        b'0'..=b'9' => Some(digit - b'0'),
        b'a'..=b'f' => Some(digit - b'a' + 10),
        b'A'..=b'F' => Some(digit - b'A' + 10),
        _ => None,
    }
}

// The bytes of the pairs behind the bytes before, up to a pair that is none, and whether all were pairs.
fn push_pairs(bytes: &mut Vec<u8>, cell: &[u8]) -> bool
    requires { vec_len bytes.old + length cell.now / 2 ≤ vec_capacity bytes.old }
    ensures took { if_taken result bytes.new.items
        ≡ option_map (λ more. bytes.old.items ++ more) (hexadecimal cell.now) }
    ensures kept { take (vec_len bytes.old) bytes.new.items ≡ bytes.old.items }
{
    let mut left = cell;
    while let Some((high, after)) = left.split_first() {
        let Some((low, rest)) = after.split_first() else {
            return false;
        };
        let (Some(high), Some(low)) = (value_of(*high), value_of(*low)) else {
            return false;
        };
        bytes.push_reserved(high * 16 + low);
        left = rest;
    }
    true
}

/// The bytes that a cell of pairs of hexadecimal digits writes, behind the bytes before, and whether it
/// reads. Either case.
pub fn push_hexadecimal(bytes: &mut Vec<u8>, cell: &[u8]) -> Result<bool, AllocError>
    ensures ok { IfOk result (λ took. if_taken took bytes.new.items
        ≡ option_map (λ more. bytes.old.items ++ more) (hexadecimal cell.now)) }
    ensures refused { IfOk result (λ took. OnFalse took (bytes.new.items ≡ bytes.old.items)) }
    ensures err { OnErr result (bytes.new.items ≡ bytes.old.items) }
{
    bytes.reserve(cell.len() / 2)?;
    let before = bytes.len();
    let took = push_pairs(bytes, cell);
    if !took {
        bytes.truncate(before);
    }
    Ok(took)
}

/// Whether a cell is pairs of hexadecimal digits, of either case.
pub fn is_hexadecimal(cell: &[u8]) -> bool
    ensures { result ≡ is_some (hexadecimal cell.now) }
{
    let mut left = cell;
    while let Some((high, after)) = left.split_first() {
        let Some((low, rest)) = after.split_first() else {
            return false;
        };
        if !high.is_ascii_hexdigit() || !low.is_ascii_hexdigit() {
            return false;
        }
        left = rest;
    }
    true
}

// The digit of a value, in lower case.
#[inline]
fn digit_of(value: u8) -> u8
    requires { value < 16 }
    ensures { result ≡ hex_digit value }
{
    if value < 10 {
        value + b'0'
    } else {
        value + (b'a' - 10)
    }
}

/// The digits of bytes, in lower case, behind what is there.
pub fn write_hexadecimal(value: &[u8], to: &mut Vec<u8>) -> Result<(), AllocError>
    ensures { OnOk result (to.new.items ≡ to.old.items ++ hexadecimal_text value.now) }
{
    to.reserve(2 * value.len())?;
    for byte in value {
        to.push_reserved(digit_of(byte / 16));
        to.push_reserved(digit_of(byte % 16));
    }
    Ok(())
}

#[cfg(test)]
mod tests {
    use super::*;
    use std::test::Fail;

    #[test]
    fn pairs_of_digits(rt: HostRuntime) -> Result<(), Fail> {
        for (cell, reads, text) in [
            ("00fF", true, "00ff"),
            ("", true, ""),
            ("aB09", true, "ab09"),
            ("0", false, ""),
            ("0g", false, ""),
            ("00f", false, ""),
            ("00:0", false, ""),
        ] {
            let mut bytes = Vec::from_slice(rt.alloc(), b"\x07")?;
            let took = push_hexadecimal(&mut bytes, cell.as_bytes())?;
            assert_eq!(rt; took, reads, "{cell}");
            assert_eq!(rt; is_hexadecimal(cell.as_bytes()), reads, "{cell}");
            let mut written = Vec::new(rt.alloc());
            write_hexadecimal(&bytes, &mut written)?;
            let mut wanted = Vec::from_slice(rt.alloc(), b"07")?;
            wanted.extend_from_slice(text.as_bytes())?;
            assert_eq!(rt; written.as_slice(), wanted.as_slice(), "{cell}");
        }
        let mut bytes = Vec::new(rt.alloc());
        push_hexadecimal(&mut bytes, b"00fF")?;
        assert_eq!(rt; bytes.as_slice(), [0, 255].as_slice());
        Ok(())
    }
}
