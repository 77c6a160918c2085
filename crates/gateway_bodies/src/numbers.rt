//! Numbers in JSON that have a value.

ghost use Rattle.std.specs.Prelude.{◌≡◌, ◌==◌, ◌<◌, IsTrue, is_some, length, false, slice_index, true};
ghost use Rattle.serde_json.specs.Read.{float_of, number_from, number_of};

use fast_float::Numeral;

/// Returns whether the numeral's nearest float is finite.
fn has_float(is_negative: bool, numeral: &Numeral<'_>) -> bool
    ensures { result ≡ is_some (float_of is_negative numeral.now) }
{
    numeral.to_float::<f64>(is_negative).is_finite()
}

/// Returns whether a numeral without a sign is an integer of 64 bits or has a finite float.
fn has_value(numeral: &Numeral<'_>) -> bool
    ensures { result ≡ is_some (number_from false numeral.now) }
{
    match numeral.to_u64() {
        Some(_) => true,
        None => has_float(false, numeral),
    }
}

/// Returns whether a numeral after a minus is an integer of 64 bits below 0 or has a finite float.
fn has_negative_value(numeral: &Numeral<'_>) -> bool
    ensures { result ≡ is_some (number_from true numeral.now) }
{
    if let Some(number) = numeral.to_i64(true) {
        if number < 0 {
            return true;
        }
    }
    has_float(true, numeral)
}

/// Returns whether a text begins with a minus.
fn has_minus(bytes: &[u8]) -> bool
    ensures value { result ≡ (slice_index bytes.now 0 == 45) }
    ensures length { IsTrue result → 0 < length bytes.now }
{
    !bytes.is_empty() && bytes[0] == b'-'
}

/// Returns whether a number of JSON has a value, as `serde_json` gives it: an integer of 64 bits, or a finite float.
pub(crate) fn is_in_range(number: &str) -> bool
    ensures { result ≡ is_some (number_of number.now) }
{
    let bytes = number.as_bytes();
    if has_minus(bytes) {
        has_negative_value(&Numeral::scan(&bytes[1..]))
    } else {
        has_value(&Numeral::scan(bytes))
    }
}
