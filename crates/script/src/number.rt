// Numbers in decimal digits.
ghost use Rattle.std.specs.Prelude.{◌≡◌, [], ◌∷◌};
ghost use Rattle.script.specs.Numbers.{numeral, numeral_on};

use crate::field::Field;

// The number that `value` and then one more digit write.
fn with_digit(value: u32, byte: u8) -> Option<u32>
    ensures { result ≡ numeral_on value (byte ∷ []) }
{
    if !byte.is_ascii_digit() {
        return None;
    }
    value.checked_mul(10)?.checked_add(u32::from(byte - b'0'))
}

// One digit or more and nothing else, below 2^32. The library's `parse` wants a text, and to see first that the bytes
// are one takes longer than to read the digits.
impl Field for u32 {
    ghost told = { numeral };

    fn of_text(text: &[u8]) -> Option<u32> {
        if text.is_empty() {
            return None;
        }
        let mut value = 0;
        for byte in text {
            value = with_digit(value, *byte)?;
        }
        Some(value)
    }
}
