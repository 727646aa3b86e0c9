//! Parts of a JSON text (RFC 8259), written after what is there.
ghost use Rattle.std.specs.Prelude.{◌≡◌, ◌<◌, ◌/◌, ◌%◌, ◌^◌, ◌++◌, ◌∷◌, [], false, OnOk, decimal, negsuc, string_bytes};
ghost use Rattle.std.specs.Char.{digit_char};
ghost use Rattle.std.specs.Fmt.{signed_decimal};
ghost use Rattle.json.specs.Print.{escape, escape_byte, quoted};
ghost use Rattle.serde_json.specs.Written.{comma_if, compact_text};
ghost use Rattle.transformers.specs.Item.{simple_data};
ghost use Rattle.transformers.specs.Told.{pieces_text};

use std::alloc::AllocError;
use std::collections::BTreeMap;

/// The texts of an object's members that were read so far.
pub(crate) type Pieces = BTreeMap<String, Vec<u8>>;

// A hexadecimal digit, in lower case.
fn hex_digit(d: u8) -> u8
    requires { d < 16 }
    ensures { result ≡ digit_char d }
{
    if d < 10 { b'0' + d } else { b'a' - 10 + d }
}

// A byte below 32 that has no letter of its own.
fn put_code(out: &mut Vec<u8>, byte: u8) -> Result<(), AllocError>
    requires { byte < 32 }
    ensures { OnOk result (out.new.items ≡ out.old.items
        ++ 92 ∷ 117 ∷ 48 ∷ 48 ∷ digit_char (byte / 16) ∷ digit_char (byte % 16) ∷ []) }
{
    out.push(b'\\')?;
    out.push(b'u')?;
    out.push(b'0')?;
    out.push(b'0')?;
    out.push(hex_digit(byte / 16))?;
    out.push(hex_digit(byte % 16))?;
    Ok(())
}

// A backslash and a letter.
fn put_letter(out: &mut Vec<u8>, letter: u8) -> Result<(), AllocError>
    ensures { OnOk result (out.new.items ≡ out.old.items ++ 92 ∷ letter ∷ []) }
{
    out.push(b'\\')?;
    out.push(letter)?;
    Ok(())
}

// What stands in a string for a byte.
#[tactic(auto, unfolding(json::specs::Print::escape_byte))]
fn put_byte(out: &mut Vec<u8>, byte: u8) -> Result<(), AllocError>
    ensures { OnOk result (out.new.items ≡ out.old.items ++ escape_byte byte) }
{
    match byte {
        b'"' | b'\\' => put_letter(out, byte),
        8 => put_letter(out, b'b'),
        12 => put_letter(out, b'f'),
        b'\n' => put_letter(out, b'n'),
        b'\r' => put_letter(out, b'r'),
        b'\t' => put_letter(out, b't'),
        0..=31 => put_code(out, byte),
        _ => {
            out.push(byte)?;
            Ok(())
        }
    }
}

fn put_escaped(out: &mut Vec<u8>, text: &[u8]) -> Result<(), AllocError>
    ensures { OnOk result (out.new.items ≡ out.old.items ++ escape text.now) }
{
    'each: for byte in text {
        put_byte(out, *byte)?;
    }
    Ok(())
}

// A text in quotes.
pub(crate) fn put_quoted(out: &mut Vec<u8>, text: &str) -> Result<(), AllocError>
    ensures { OnOk result (out.new.items ≡ out.old.items ++ quoted text.now) }
{
    out.push(b'"')?;
    put_escaped(out, text.as_bytes())?;
    out.push(b'"')?;
    Ok(())
}

pub(crate) fn put_unsigned(out: &mut Vec<u8>, n: u64) -> Result<(), AllocError>
    ensures { OnOk result (out.new.items ≡ out.old.items ++ decimal n) }
{
    let mut buffer = itoa::Buffer::new();
    out.extend_from_slice(buffer.format(n).as_bytes())?;
    Ok(())
}

// -1 - n.
pub(crate) fn put_negative(out: &mut Vec<u8>, n: u64) -> Result<(), AllocError>
    requires { n < 2 ^ 63 }
    ensures { OnOk result (out.new.items ≡ out.old.items ++ signed_decimal (negsuc n)) }
{
    out.push(b'-')?;
    put_unsigned(out, n + 1)
}

// False, true or null.
pub(crate) fn put_simple(out: &mut Vec<u8>, simple: Option<bool>) -> Result<(), AllocError>
    ensures { OnOk result (out.new.items ≡ out.old.items ++ compact_text (simple_data simple)) }
{
    match simple {
        Some(true) => out.extend_from_slice(b"true")?,
        Some(false) => out.extend_from_slice(b"false")?,
        None => out.extend_from_slice(b"null")?,
    }
    Ok(())
}

// A comma, where something stands before.
pub(crate) fn put_comma(out: &mut Vec<u8>, later: bool) -> Result<(), AllocError>
    ensures { OnOk result (out.new.items ≡ out.old.items ++ comma_if later) }
{
    if later {
        out.push(b',')?;
    }
    Ok(())
}

// One more member, with its comma where another one stands before it.
fn put_piece(
    out: &mut Vec<u8>,
    later: bool,
    key: &String,
    piece: &Vec<u8>,
) -> Result<(), AllocError>
    ensures { OnOk result (out.new.items ≡ out.old.items
        ++ (comma_if later ++ (quoted (string_bytes key.now) ++ 58 ∷ piece.now.items))) }
{
    put_comma(out, later)?;
    put_quoted(out, key.as_str())?;
    out.push(b':')?;
    out.extend_from_slice(piece.as_slice())?;
    Ok(())
}

// The members in the order of their keys, and the brace that closes the object.
#[tactic(auto, using(crate::proofs::Telling::piece_written))]
pub(crate) fn put_pieces(out: &mut Vec<u8>, pieces: &Pieces) -> Result<(), AllocError>
    ensures { OnOk result (out.new.items
        ≡ out.old.items ++ pieces_text false pieces.now.entries) }
{
    let mut left = pieces.iter();
    let mut later = false;
    'each: while let Some((key, piece)) = left.next() {
        put_piece(out, later, key, piece)?;
        later = true;
    }
    out.push(b'}')?;
    Ok(())
}
