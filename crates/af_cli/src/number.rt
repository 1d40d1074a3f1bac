// Arguments as values: numbers, gains, switches, forms of files and byte orders.
ghost use Rattle.std.specs.Prelude.{◌≡◌, ◌<◌};
ghost use Rattle.af_cli.specs.Numbers.{form_in, gain_in, number_in, order_in, switch_in};

use af_sample::Gain;
use af_sound::SoundForm;
use af_wire::Order;

/// The number that decimal digits state, if it lies between these two. Leading zeros are allowed.
pub fn number_in(low: u32, high: u32, text: &[u8]) -> Option<u32>
    ensures { result ≡ number_in low high text.now }
{
    if text.is_empty() {
        return None;
    }
    let mut value = 0u64;
    for digit in text {
        if !digit.is_ascii_digit() {
            return None;
        }
        if value > u64::from(high) {
            return None;
        }
        value = value * 10 + u64::from(*digit - b'0');
    }
    if u64::from(low) <= value && value <= u64::from(high) {
        Some(value as u32)
    } else {
        None
    }
}

/// A gain of -30 to 30 decibels.
pub fn gain_in(text: &[u8]) -> Option<Gain>
    ensures { result ≡ gain_in text.now }
{
    match text {
        [] => None,
        [b'-', digits @ ..] => Gain::new(-(number_in(0, 30, digits)? as i32)),
        digits => Gain::new(number_in(0, 30, digits)? as i32),
    }
}

/// A switch, by the word for it and the word against it.
pub fn switch_in(when: &str, otherwise: &str, text: &str) -> Option<bool>
    ensures { result ≡ switch_in when.now otherwise.now text.now }
{
    if text == when {
        Some(true)
    } else if text == otherwise {
        Some(false)
    } else {
        None
    }
}

/// The form of a sound file by its name, or none where the name says that the bytes are samples.
pub fn form_in(text: &str) -> Option<Option<SoundForm>>
    ensures { result ≡ form_in text.now }
{
    if text == "raw" {
        Some(None)
    } else if text == "au" {
        Some(Some(SoundForm::Au))
    } else if text == "wave" {
        Some(Some(SoundForm::Wave))
    } else {
        None
    }
}

/// The order of the bytes of a connection, by its name.
pub fn order_in(text: &str) -> Option<Order>
    ensures { result ≡ order_in text.now }
{
    if text == "big" {
        Some(Order::Big)
    } else if text == "little" {
        Some(Order::Little)
    } else {
        None
    }
}
