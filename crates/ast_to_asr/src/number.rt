//! The numbers that digits are.
ghost use Rattle.std.specs.Prelude.{◌≡◌, ◌+◌, ◌*◌, ◌-◌};
ghost use Rattle.fortran_semantics.specs.Constants.{number_of};
ghost use Rattle.ast_to_asr.specs.Numbers.{in_64_bits};

/// The base in which literals are written (ISO/IEC 1539-1:2018, 7.4.3.1).
const BASE: u64 = 10;

/// The number with one digit more, where it fits 64 bits.
fn with_digit(number: u64, digit: u8) -> Option<u64>
    ensures { result ≡ in_64_bits (number * 10 + (digit - 48)) }
{
    match number.checked_mul(BASE) {
        None => None,
        Some(tens) => tens.checked_add(u64::from(digit.saturating_sub(b'0'))),
    }
}

/// The number that the digits of a literal are (ISO/IEC 1539-1:2018, 7.4.3.1), or none where it does not fit 64 bits. It
/// takes time in the number of the digits.
pub(crate) fn number(digits: &[u8]) -> Option<u64>
    ensures { result ≡ in_64_bits (number_of digits.now) }
{
    let mut number = 0;
    for digit in digits {
        match with_digit(number, *digit) {
            None => return None,
            Some(longer) => number = longer,
        }
    }
    Some(number)
}
