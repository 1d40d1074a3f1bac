// The digits of telephones.
ghost use Rattle.std.specs.Prelude.{◌≡◌};
ghost use Rattle.af_cli.specs.Digits.{all_digits, are_digits, has_digit, states_digits};

// Their ASCII codes.
const DIGITS: &str = "0123456789*#ABCD";

/// The most digits that an argument states.
pub const MOST_DIGITS: usize = 16;

/// Whether a code is that of one of these digits.
pub fn has_digit(digits: &[u8], code: u32) -> bool
    ensures { result ≡ has_digit digits.now code }
{
    for digit in digits {
        if u32::from(*digit) == code {
            return true;
        }
    }
    false
}

/// Whether a code is that of a digit of telephones.
pub fn is_digit(code: u32) -> bool
    ensures { result ≡ has_digit all_digits code }
{
    has_digit(DIGITS.as_bytes(), code)
}

// Whether all of these are digits of telephones.
fn are_digits(codes: &[u8]) -> bool
    ensures { result ≡ are_digits codes.now }
{
    for code in codes {
        if !is_digit(u32::from(*code)) {
            return false;
        }
    }
    true
}

/// Whether a text states digits, 1 to 16 of them.
pub fn states_digits(text: &[u8]) -> bool
    ensures { result ≡ states_digits text.now }
{
    1 <= text.len() && text.len() <= MOST_DIGITS && are_digits(text)
}
