//! The words of types in a table's header.

ghost use Rattle.std.specs.Prelude.{◌≡◌, ◌++◌, codes, decimal, map, option_map, IfSome, OnOk};
ghost use Rattle.gb_defs.specs.TypeWord.{category_word as word_of_categories, field_words, scale_of, type_word, unit_word as word_of_unit};
ghost use Rattle.gb_base.specs.DataType.{fields_of, ordering_of, part_of, type_of, unit_of};
ghost use Rattle.gb_text.specs.Builder.{IsNamed};
ghost use Rattle.gb_text.specs.Head.{decimal_scales, decimal_type_of, named_type, scale_among};

use gb_base::data_type::{CategoricalOrdering, DataType, TimeUnit};
use gb_base::field::Field;
use itoa::Buffer;
use std::alloc::AllocError;

// The scale of the decimals that a word names.
fn decimal_scale(word: &str) -> Option<usize>
    ensures { result ≡ scale_among decimal_scales word.now }
{
    match word {
        "dec0" => Some(0),
        "dec1" => Some(1),
        "dec2" => Some(2),
        "dec3" => Some(3),
        "dec4" => Some(4),
        "dec5" => Some(5),
        "dec6" => Some(6),
        "dec7" => Some(7),
        "dec8" => Some(8),
        "dec9" => Some(9),
        "dec10" => Some(10),
        "dec11" => Some(11),
        "dec12" => Some(12),
        "dec13" => Some(13),
        "dec14" => Some(14),
        "dec15" => Some(15),
        "dec16" => Some(16),
        "dec17" => Some(17),
        "dec18" => Some(18),
        "dec19" => Some(19),
        "dec20" => Some(20),
        "dec21" => Some(21),
        "dec22" => Some(22),
        "dec23" => Some(23),
        "dec24" => Some(24),
        "dec25" => Some(25),
        "dec26" => Some(26),
        "dec27" => Some(27),
        "dec28" => Some(28),
        "dec29" => Some(29),
        "dec30" => Some(30),
        "dec31" => Some(31),
        "dec32" => Some(32),
        "dec33" => Some(33),
        "dec34" => Some(34),
        "dec35" => Some(35),
        "dec36" => Some(36),
        "dec37" => Some(37),
        "dec38" => Some(38),
        _ => None,
    }
}

// The decimal type that a word names.
fn decimal_type(word: &str) -> Option<DataType>
    ensures value { option_map type_of result ≡ decimal_type_of word.now }
    ensures named { IfSome result IsNamed }
{
    let scale = decimal_scale(word)?;
    Some(DataType::Decimal(None, Some(scale)))
}

/// The type that a word names.
#[tactic(auto, unfolding(gb_defs::specs::TypeWord::type_words))]
pub fn dtype_of(word: &str) -> Option<DataType>
    ensures value { option_map type_of result ≡ named_type word.now }
    ensures named { IfSome result IsNamed }
{
    match word {
        "null" => Some(DataType::Null),
        "bool" => Some(DataType::Boolean),
        "u8" => Some(DataType::UInt8),
        "u16" => Some(DataType::UInt16),
        "u32" => Some(DataType::UInt32),
        "u64" => Some(DataType::UInt64),
        "i8" => Some(DataType::Int8),
        "i16" => Some(DataType::Int16),
        "i32" => Some(DataType::Int32),
        "i64" => Some(DataType::Int64),
        "i128" => Some(DataType::Int128),
        "date" => Some(DataType::Date),
        "time" => Some(DataType::Time),
        "datetime_ns" => Some(DataType::Datetime(TimeUnit::Nanoseconds)),
        "datetime_us" => Some(DataType::Datetime(TimeUnit::Microseconds)),
        "datetime_ms" => Some(DataType::Datetime(TimeUnit::Milliseconds)),
        "duration_ns" => Some(DataType::Duration(TimeUnit::Nanoseconds)),
        "duration_us" => Some(DataType::Duration(TimeUnit::Microseconds)),
        "duration_ms" => Some(DataType::Duration(TimeUnit::Milliseconds)),
        "str" => Some(DataType::String),
        "bin" => Some(DataType::Binary),
        "cat" => Some(DataType::Categorical(None, CategoricalOrdering::Physical)),
        "lexcat" => Some(DataType::Categorical(None, CategoricalOrdering::Lexical)),
        _ => decimal_type(word),
    }
}

// A word behind what is there.
fn put(to: &mut Vec<u8>, word: &str) -> Result<(), AllocError>
    ensures { OnOk result (to.new.items ≡ to.old.items ++ word.now) }
{
    to.extend_from_slice(word.as_bytes())?;
    Ok(())
}

// The word of decimals behind what is there; without a scale they have no digits behind the point.
fn put_decimal(to: &mut Vec<u8>, scale: Option<usize>) -> Result<(), AllocError>
    ensures { let word = codes "dec" ++ decimal (scale_of scale) in
        OnOk result (to.new.items ≡ to.old.items ++ word) }
{
    put(to, "dec")?;
    let mut digits = Buffer::new();
    put(to, digits.format(scale.unwrap_or(0)))
}

/// The word of a type, behind what is there.
#[cycle(words)]
#[tactic(auto, using(gb_base::proofs::DataTypeLemmas::list_type, gb_base::proofs::DataTypeLemmas::array_type, gb_base::proofs::DataTypeLemmas::struct_type,))]
pub fn put_word(dtype: &DataType, to: &mut Vec<u8>) -> Result<(), AllocError>
    ensures { OnOk result (to.new.items ≡ to.old.items ++ type_word (type_of dtype.now)) }
{
    match dtype {
        DataType::Null => put(to, "null"),
        DataType::Boolean => put(to, "bool"),
        DataType::UInt8 => put(to, "u8"),
        DataType::UInt16 => put(to, "u16"),
        DataType::UInt32 => put(to, "u32"),
        DataType::UInt64 => put(to, "u64"),
        DataType::Int8 => put(to, "i8"),
        DataType::Int16 => put(to, "i16"),
        DataType::Int32 => put(to, "i32"),
        DataType::Int64 => put(to, "i64"),
        DataType::Int128 => put(to, "i128"),
        DataType::Decimal(_, scale) => put_decimal(to, *scale),
        DataType::Date => put(to, "date"),
        DataType::Time => put(to, "time"),
        DataType::Datetime(unit) => {
            put(to, "datetime_")?;
            put(to, unit_word(*unit))
        }
        DataType::Duration(unit) => {
            put(to, "duration_")?;
            put(to, unit_word(*unit))
        }
        DataType::String => put(to, "str"),
        DataType::Binary => put(to, "bin"),
        DataType::BinaryOffset => put(to, "binoff"),
        DataType::Categorical(_, ordering) => put(to, category_word(*ordering)),
        DataType::Enum(_, _) => put(to, "enum"),
        DataType::List(inner) => {
            put(to, "list[")?;
            put_word(inner.as_ref(), to)?;
            put(to, "]")
        }
        DataType::Array(inner, width) => {
            put(to, "array[")?;
            put_word(inner.as_ref(), to)?;
            put_width(to, *width)?;
            put(to, "]")
        }
        DataType::Struct(fields) => {
            put(to, "struct[")?;
            put_parts(fields.as_slice(), to)?;
            put(to, "]")
        }
    }
}

// The words of the parts of a struct, with commas between them, behind what is there.
#[cycle(words)]
fn put_parts(fields: &[Field], to: &mut Vec<u8>) -> Result<(), AllocError>
    ensures { let words = field_words (fields_of (map part_of fields.now)) in
        OnOk result (to.new.items ≡ to.old.items ++ words) }
{
    let Some((first, rest)) = fields.split_first() else {
        return Ok(());
    };
    put_word(&first.dtype, to)?;
    for field in rest {
        put(to, ",")?;
        put_word(&field.dtype, to)?;
    }
    Ok(())
}

// The width of an array, behind what is there.
fn put_width(to: &mut Vec<u8>, width: usize) -> Result<(), AllocError>
    ensures { OnOk result (to.new.items ≡ to.old.items ++ codes ";" ++ decimal width) }
{
    put(to, ";")?;
    let mut digits = Buffer::new();
    put(to, digits.format(width))
}

// The word of categories.
fn category_word(ordering: CategoricalOrdering) -> &'static str
    ensures { result.now ≡ word_of_categories (ordering_of ordering) }
{
    match ordering {
        CategoricalOrdering::Physical => "cat",
        CategoricalOrdering::Lexical => "lexcat",
    }
}

// The end of the word of a type that counts a unit.
fn unit_word(unit: TimeUnit) -> &'static str
    ensures { result.now ≡ word_of_unit (unit_of unit) }
{
    match unit {
        TimeUnit::Nanoseconds => "ns",
        TimeUnit::Microseconds => "us",
        TimeUnit::Milliseconds => "ms",
    }
}
