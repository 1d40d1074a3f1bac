// Words that are numbers.
ghost use Rattle.std.specs.Prelude.{◌≡◌, ◌≤◌, ◌<◌, ◌^◌, IfSome};
ghost use Rattle.af_text.specs.Words.{number_of, number_up_to, number_within, long_number_of, long_number_within};

// The number that a word of 1 to n decimal digits is.
fn number_up_to(most: usize, word: &[u8]) -> Option<u128>
    requires { most ≤ 20 }
    ensures value { result ≡ number_up_to most word.now }
    ensures bound { IfSome result (λ n. n < 10 ^ most) }
{
    if word.is_empty() || word.len() > most {
        return None;
    }
    let mut value = 0u128;
    for digit in word {
        if !digit.is_ascii_digit() {
            return None;
        }
        value = value * 10 + u128::from(*digit - b'0');
    }
    Some(value)
}

/// The number of a word of 1 to 10 decimal digits.
pub fn number(word: &[u8]) -> Option<u64>
    ensures { result ≡ number_of word.now }
{
    let value = number_up_to(10, word)?;
    Some(value as u64)
}

/// The number of a word of 1 to 10 decimal digits, if it lies between these two.
pub fn number_between(low: u32, high: u32, word: &[u8]) -> Option<u32>
    ensures { result ≡ number_within low high word.now }
{
    let value = number(word)?;
    if u64::from(low) <= value && value <= u64::from(high) {
        Some(value as u32)
    } else {
        None
    }
}

/// The number of a word of 1 to 20 decimal digits, if it lies between these two.
pub fn long_number_between(low: u64, high: u64, word: &[u8]) -> Option<u64>
    ensures value { result ≡ long_number_within low high word.now }
    ensures range { IfSome result (λ n. (low ≤ n) × (n ≤ high)) }
{
    let value = number_up_to(20, word)?;
    if u128::from(low) <= value && value <= u128::from(high) {
        Some(value as u64)
    } else {
        None
    }
}
