//! Decimal numerals: digits with no leading zero but for 0 itself.

ghost use Rattle.std.specs.Prelude.{◌≡◌};
ghost use Rattle.text.specs.Numerals.{numeral, worth};

use crate::faults::WordFault;

/// Whether the bytes are a numeral.
pub(crate) fn is_numeral(part: &[u8]) -> bool
    ensures { result ≡ numeral part.now }
{
    match part {
        [] => false,
        [digit] => digit.is_ascii_digit(),
        [first, ..] => *first != b'0' && part.iter().all(u8::is_ascii_digit),
    }
}

/// What a numeral is worth, if that is at most 65,535.
pub(crate) fn value_of(part: &[u8]) -> Result<u16, WordFault>
    ensures { result ≡ worth part.now }
{
    let mut value: u16 = 0;
    // a loop with `?`, which ends where the value is too large
    for byte in part {
        // saturating, since whoever makes a `Word` of their own may put any bytes into it
        let digit = u16::from(byte.saturating_sub(b'0'));
        value = value
            .checked_mul(10)
            .and_then(|tens| tens.checked_add(digit))
            .ok_or(WordFault::TooLarge)?;
    }
    Ok(value)
}
