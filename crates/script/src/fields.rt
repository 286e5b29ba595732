// What a field says: the letter, the number or the coordinate that it is, or none.
// It carries document 01's "Coordinates are whole numbers within ±1,000,000, other numbers u32; all decimal, one space between
// fields, a minus sign only before coordinates".

ghost use Rattle.std.specs.Prelude.{◌≡◌, cond, ◌<◌, pos, neg_ℤ};
ghost use Rattle.rules.specs.Script.{digits_up_to, number_in, coordinate_in, float_of};
ghost use Rattle.script.specs.Fields.{letter_of, digits_of, offset_of};

// Coordinates lie within a million either way, other numbers below 2 to the 32.
const FARTHEST: u32 = 1000000;

// The letter, where the field is one byte.
pub fn letter(field: &[u8]) -> Option<u8>
    ensures { result ≡ letter_of field.now }
{
    if field.len() != 1 {
        return None;
    }
    Some(field[0])
}

// The digits, one or more, as a number that is at most the limit.
fn digits(field: &[u8], limit: u32) -> Option<u32>
    ensures { result ≡ digits_of (digits_up_to limit field.now) }
{
    if field.is_empty() {
        return None;
    }
    let most = limit as u64;
    let mut value: u64 = 0;
    for &c in field {
        if c < b'0' || c > b'9' {
            return None;
        }
        value = value * 10 + (c - b'0') as u64;
        if value > most {
            return None;
        }
    }
    Some(value as u32)
}

// The number.
pub fn number(field: &[u8]) -> Option<u32>
    ensures { result ≡ digits_of (number_in field.now) }
{
    digits(field, u32::MAX)
}

// A whole number with its sign, as a coordinate: -0 is 0.
fn whole(minus: bool, v: u32) -> f64
    ensures { result ≡ float_of (cond minus (neg_ℤ (pos v)) (pos v)) }
{
    let size = v as f64;
    if !minus || v == 0 {
        return size;
    }
    -size
}

// The coordinate.
pub fn coordinate(field: &[u8]) -> Option<f64>
    ensures { result ≡ offset_of (coordinate_in field.now) }
{
    if field.is_empty() {
        return None;
    }
    if field[0] == b'-' {
        return Some(whole(true, digits(&field[1..], FARTHEST)?));
    }
    Some(whole(false, digits(field, FARTHEST)?))
}
