//! Values have codes, texts describe shapes or are refused, and shapes are printed.
ghost use Rattle.std.specs.Prelude.{IsTrue};
ghost use Rattle.spl_values.specs.Kinds.{is_kind};

use crate::fixtures::FLIGHTS_SHAPE;
use spl_values::*;
use std::alloc::Global;

/// The code of a text in a column of that type.
fn code_of(kind: &ColumnType, text: &[u8]) -> Result<u128, ValueFault>
    requires { IsTrue (is_kind kind.now) }
{
    let value = value_of(kind, text)?;
    Ok(encode(kind, value))
}

/// A text, and its code in a column or why it has none.
type CodeCase = (&'static [u8], Result<u128, ValueFault>);

/// The first case that a column of that type takes otherwise.
fn first_other_code(kind: &ColumnType, cases: &[CodeCase]) -> Option<usize>
    requires { IsTrue (is_kind kind.now) }
{
    for (at, (text, wanted)) in cases.iter().enumerate() {
        if code_of(kind, text) != *wanted {
            return Some(at);
        }
    }
    None
}

const SHORT_TEXTS: &[CodeCase] = &[
    (b"SFO", Ok(5457487)),
    (b"AB", Ok(0x414200)),
    (b"", Ok(0)),
    (b"SFOX", Err(ValueFault::TooLong(4))),
    (b"\xff", Err(ValueFault::BadByte(0))),
    (b"a\x7f\x1f", Err(ValueFault::BadByte(1))),
];

#[test]
fn texts_have_codes(rt: HostRuntime) {
    let kind = ColumnType::Text(3);
    assert_eq!(rt; first_other_code(&kind, SHORT_TEXTS), None);
    assert_eq!(rt; code_of(&ColumnType::Text(16), b"AB"), Ok(0x4142 << 112));
}

/// A code with a byte 0 before another byte is that of no text, and so is one that is too wide.
#[test]
fn codes_of_texts_are_read(rt: HostRuntime) {
    let kind = ColumnType::Text(3);
    let found = [
        decode(&kind, 0x414200).is_some(),
        decode(&kind, 0x410042).is_some(),
        decode(&kind, 1 << 24).is_some(),
    ];
    assert_eq!(rt; (bits(&kind), found), (24, [true, false, false]));
}

const BYTE_NUMBERS: &[CodeCase] = &[
    (b"000255", Ok(255)),
    (b"256", Err(ValueFault::TooLarge)),
    (b"", Err(ValueFault::NotANumber)),
    (b"+1", Err(ValueFault::NotANumber)),
    (b"1 ", Err(ValueFault::NotANumber)),
];

const WIDE_NUMBERS: &[CodeCase] = &[
    (b"18446744073709551615", Ok(18_446_744_073_709_551_615)),
    (b"18446744073709551616", Err(ValueFault::TooLarge)),
];

#[test]
fn numbers_have_codes(rt: HostRuntime) {
    assert_eq!(rt; first_other_code(&ColumnType::Uint(8), BYTE_NUMBERS), None);
    assert_eq!(rt; first_other_code(&ColumnType::Uint(64), WIDE_NUMBERS), None);
}

/// Whether a number of 64 bits is printed so.
fn is_number(alloc: Global, number: u64, wanted: &[u8]) -> bool {
    match print_value(alloc, &ColumnType::Uint(64), Value::Number(number)) {
        Ok(printed) => printed.as_slice() == wanted,
        Err(_) => false,
    }
}

#[test]
fn numbers_are_printed(rt: HostRuntime) {
    assert!(rt; is_number(rt.alloc(), 70, b"70"));
}

/// The fault of a text that describes no shape.
fn fault_of(alloc: Global, text: &[u8]) -> Option<ShapeFault> {
    read_shape(alloc, text).err()
}

/// A text, and why it describes no shape.
const SHAPES: &[(&[u8], Option<ShapeFault>)] = &[
    (b"", Some(ShapeFault::BadLine(1))),
    (b"\n", Some(ShapeFault::BadLine(1))),
    (
        b"table 1t\nrows 1\na UINT(1)\n",
        Some(ShapeFault::BadLine(1)),
    ),
    (
        b"table sElect\nrows 1\na UINT(1)\n",
        Some(ShapeFault::BadLine(1)),
    ),
    (b"table t", Some(ShapeFault::BadLine(2))),
    (
        b"table t\nrows 01\na UINT(1)\n",
        Some(ShapeFault::BadLine(2)),
    ),
    (b"table t\nrows 262145\n", Some(ShapeFault::TooManyRows)),
    (
        b"table t\nrows 99999999999999999999999\n",
        Some(ShapeFault::TooManyRows),
    ),
    (b"table t\nrows 262144\na UINT(1)", None),
    (b"table t\nrows 0\na UINT(64)", None),
    (b"table t\nrows 1", Some(ShapeFault::BadLine(3))),
    (b"table t\nrows 1\n", Some(ShapeFault::BadLine(3))),
    (
        b"table t\nrows 1\na UINT(08)\n",
        Some(ShapeFault::BadLine(3)),
    ),
    (
        b"table t\nrows 1\na UINT(65)\n",
        Some(ShapeFault::BadLine(3)),
    ),
    (
        b"table t\nrows 1\na TEXT(17)\n",
        Some(ShapeFault::BadLine(3)),
    ),
    (b"table t\nrows 1\na ENUM()\n", Some(ShapeFault::BadLine(3))),
    (
        b"table t\nrows 1\na ENUM(x|y|x)\n",
        Some(ShapeFault::BadLine(3)),
    ),
    (
        b"table t\nrows 1\na  UINT(1)\n",
        Some(ShapeFault::BadLine(3)),
    ),
    (
        b"table t\nrows 1\ngroup UINT(1)\n",
        Some(ShapeFault::BadLine(3)),
    ),
    (
        b"table t\nrows 1\na UINT(1)\nA UINT(1)\na TEXT(1)\n",
        Some(ShapeFault::SameName(5)),
    ),
    (
        b"table t\nrows 1\na UINT(1)\n\n",
        Some(ShapeFault::BadLine(4)),
    ),
    (b"table t\r\nrows 1\r\na ENUM(x|y-1)\r\n", None),
    (
        b"table t\nrows 1\na UINT(1)\r",
        Some(ShapeFault::BadLine(3)),
    ),
    (
        b"table t\nrows 1\na UINT(1)\r\r\n",
        Some(ShapeFault::BadLine(3)),
    ),
];

/// The first case that is taken otherwise.
fn first_other_shape(alloc: Global) -> Option<usize> {
    for (at, (text, wanted)) in SHAPES.iter().enumerate() {
        if fault_of(alloc, text) != *wanted {
            return Some(at);
        }
    }
    None
}

#[test]
fn shape_faults(rt: HostRuntime) {
    assert_eq!(rt; first_other_shape(rt.alloc()), None);
}

/// Whether that is the text of a shape.
fn is_text_of(alloc: Global, shape: &Shape, wanted: &[u8]) -> bool {
    match print_shape(alloc, shape) {
        Ok(found) => found.as_slice() == wanted,
        Err(_) => false,
    }
}

/// Whether that is the text of the shape that a text describes.
fn is_printed(alloc: Global, text: &[u8], wanted: &[u8]) -> bool {
    match read_shape(alloc, text) {
        Ok(shape) => is_text_of(alloc, &shape, wanted),
        Err(_) => false,
    }
}

/// The same shape; some lines end with a return before the newline, and the last with neither.
const RETURNS: &[u8] =
    b"table flights\r\nrows 5\r\norigin TEXT(3)\ndest TEXT(3)\r\nmonth UINT(4)\nprice UINT(16)";

#[test]
fn shapes_are_printed(rt: HostRuntime) {
    let plain = is_printed(rt.alloc(), FLIGHTS_SHAPE, FLIGHTS_SHAPE);
    let returns = is_printed(rt.alloc(), RETURNS, FLIGHTS_SHAPE);
    assert_eq!(rt; (plain, returns, FLIGHTS_SHAPE.len()), (true, true, 78));
}

/// Whether a type is that of three labels, of which the last is `green`.
fn has_three_labels(kind: &ColumnType) -> bool
    requires { IsTrue (is_kind kind.now) }
{
    let green = code_of(kind, b"green") == Ok(2);
    let other = code_of(kind, b"Green") == Err(ValueFault::NoSuchLabel);
    bits(kind) == 2 && green && other
}

/// Whether the codes of a type are those of labels 0 to 2, and no number is its value.
fn has_three_codes(kind: &ColumnType) -> bool
    requires { IsTrue (is_kind kind.now) }
{
    let decoded = decode(kind, 1) == Some(Value::Label(1)) && decode(kind, 3).is_none();
    decoded && !fits(kind, Value::Number(1))
}

/// Whether one of the columns has these labels.
fn have_labels(shape: &Shape) -> bool {
    let mut found = false;
    for column in shape.schema.columns.as_slice() {
        if has_three_labels(&column.kind) && has_three_codes(&column.kind) {
            found = true;
        }
    }
    found
}

const COLOURS: &[u8] = b"table t\nrows 1\nk ENUM(red|blue|green)\n";

#[test]
fn labels_are_values(rt: HostRuntime) {
    let found = match read_shape(rt.alloc(), COLOURS) {
        Ok(shape) => have_labels(&shape),
        Err(_) => false,
    };
    assert!(rt; found);
}

/// Whether a name holds that text, and so does its clone.
fn is_kept(name: &Name, text: &str) -> bool {
    match name.clone() {
        Ok(again) => again == *name && name.as_str() == text,
        Err(_) => false,
    }
}

/// Whether a text is kept by a name and its clone.
fn keeps_name(alloc: Global, text: &str) -> bool {
    match String::from_str(alloc, text) {
        Ok(owned) => is_kept(&Name::from_string(owned), text),
        Err(_) => false,
    }
}

/// Whether that is what bytes hold, and they are equal to their clone.
fn are_kept(bytes: &Bytes, wanted: &[u8]) -> bool {
    match bytes.clone() {
        Ok(again) => again == *bytes && bytes.as_slice() == wanted,
        Err(_) => false,
    }
}

/// Whether two bytes are kept, and their clone.
fn keeps_bytes(alloc: Global) -> bool {
    match b"ab".to_vec(alloc) {
        Ok(bytes) => are_kept(&Bytes::from_vec(bytes), b"ab"),
        Err(_) => false,
    }
}

#[test]
fn names_and_bytes_keep_what_they_hold(rt: HostRuntime) {
    let found = [keeps_name(rt.alloc(), "a"), keeps_bytes(rt.alloc())];
    assert_eq!(rt; found, [true; 2]);
}

#[test]
fn reserved_words_are_no_names(rt: HostRuntime) {
    let names = [is_name(b"BETWEEN"), is_name(b"betweens")];
    let labels = [is_label(b"a b"), is_label(b"-1_a")];
    assert_eq!(rt;
        (is_reserved(b"between"), names, labels),
        (true, [false, true], [false, true])
    );
}
