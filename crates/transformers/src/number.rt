ghost use Rattle.std.specs.Prelude.{◌≡◌, ◌<◌, ◌==◌, false, true, length, slice_index, option_map, IfSome, IsTrue};
ghost use Rattle.serde_json.specs.Read.{float_of, number_from, number_of};
ghost use Rattle.transformers.specs.Puts.{IsFit, num_of};

use fast_float::Numeral;

/// A number of JSON: a whole one of 64 bits, or a float.
#[derive(Clone, Copy, Drop)]
pub(crate) enum Number {
    Unsigned(u64),
    /// -1 - n.
    Negative(u64),
    Float(f64),
}

fn nearest(negative: bool, numeral: &Numeral<'_>) -> Option<Number>
    ensures is { option_map num_of result ≡ float_of negative numeral.now }
    ensures range { IfSome result (λ x. IsFit (num_of x)) }
{
    let x = numeral.to_float::<f64>(negative);
    if x.is_finite() {
        Some(Number::Float(x))
    } else {
        None
    }
}

fn unsigned(numeral: &Numeral<'_>) -> Option<Number>
    ensures is { option_map num_of result ≡ number_from false numeral.now }
    ensures range { IfSome result (λ x. IsFit (num_of x)) }
{
    match numeral.to_u64() {
        Some(n) => Some(Number::Unsigned(n)),
        None => nearest(false, numeral),
    }
}

fn negative(numeral: &Numeral<'_>) -> Option<Number>
    ensures is { option_map num_of result ≡ number_from true numeral.now }
    ensures range { IfSome result (λ x. IsFit (num_of x)) }
{
    if let Some(n) = numeral.to_u64() {
        if 0 < n && n <= 1 << 63 {
            return Some(Number::Negative(n - 1));
        }
    }
    nearest(true, numeral)
}

fn has_minus(bytes: &[u8]) -> bool
    ensures value { result ≡ (slice_index bytes.now 0 == 45) }
    ensures len { IsTrue result → 0 < length bytes.now }
{
    !bytes.is_empty() && bytes[0] == b'-'
}

/// The number that a text is, if it is in range.
pub(crate) fn number_in(text: &str) -> Option<Number>
    ensures is { option_map num_of result ≡ number_of text.now }
    ensures range { IfSome result (λ x. IsFit (num_of x)) }
{
    let bytes = text.as_bytes();
    if has_minus(bytes) {
        negative(&Numeral::scan(&bytes[1..]))
    } else {
        unsigned(&Numeral::scan(bytes))
    }
}
