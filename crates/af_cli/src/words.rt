// The jobs of the tools, by their arguments.
ghost use Rattle.std.specs.Prelude.{◌≡◌, ◌≤◌, length, option_map, IfSome};
ghost use Rattle.af_limits.specs.Limits.{longest_address};
ghost use Rattle.clap.specs.Words.{found_of, rows_of};
ghost use Rattle.af_cli.specs.Arguments.{as_listed};
ghost use Rattle.af_cli.specs.Numbers.{gain_in, if_there, switch_in};
ghost use Rattle.af_cli.specs.Words.{address_at, basics_of, block_at, device_at, form_at, gain_at, is_set, length_at, number_at, order_at, pass_job, play_job, record_job, set_job, stated_number_at, text_at, type_at, value_of, wait_at};
ghost use Rattle.af_cli.specs.Ranges.{IsPaced};

use crate::argument::Argument;
use crate::arguments::{
    AHEAD, BLOCK, BLOCKS, DELAY, DEVICE, DRAIN, FILE, FOLLOW, FRAMES, FROM_DEVICE, GAIN, HOOK,
    INPUT, INPUT_GAIN, LEAD, ORDER, OUTPUT, OUTPUT_GAIN, PREEMPT, SECONDS, SLACK, STOP_BLOCKS,
    STOP_PEAK, STRICT, TIME, TO_DEVICE, TRUE_HEADER, TYPE, WAIT,
};
use crate::command::{text_of, value_of};
use crate::job::{PassJob, PlayJob, RecordJob, SetJob};
use crate::number::{form_in, gain_in, number_in, order_in, switch_in};
use af_limits::{LONGEST_ADDRESS, MOST_DEVICES};
use af_sample::{Gain, SampleType};
use af_sound::SoundForm;
use af_text::sample_type;
use af_wire::Order;
use clap::ArgMatches;

/// What aplay and arecord have in common.
#[derive(Clone, Copy)]
pub struct CommonOptions {
    pub device: u8,
    pub ty: Option<SampleType>,
    pub gain: Gain,
    pub block: u32,
    pub time: Option<u32>,
}

/// The number of an argument, in its range.
pub fn number_at<'a>(matches: &ArgMatches<'a>, argument: &Argument<'a>) -> Option<u32>
    ensures { result ≡ number_at (as_listed argument.now) (rows_of (found_of matches.now)) }
{
    argument.values.number(value_of(matches, argument)?)
}

/// The frames of a block.
pub fn block_at(matches: &ArgMatches<'_>) -> Option<u32>
    ensures value { result ≡ block_at (rows_of (found_of matches.now)) }
    ensures range { IfSome result (λ block. (1 ≤ block) × (block ≤ 4000)) }
{
    number_at(matches, &BLOCK)
}

/// The number of a device.
pub fn device_at<'a>(matches: &ArgMatches<'a>, argument: &Argument<'a>) -> Option<u8>
    ensures { result ≡ device_at (as_listed argument.now) (rows_of (found_of matches.now)) }
{
    let text = value_of(matches, argument)?;
    let number = number_in(0, MOST_DEVICES as u32 - 1, text.as_bytes())?;
    Some(number as u8)
}

/// A text of 1 to so many bytes.
pub fn text_at<'a>(
    matches: &ArgMatches<'a>,
    argument: &Argument<'a>,
    most: usize,
) -> Option<&'a str>
    ensures text { option_map (λ s. s.now) result ≡ text_at (as_listed argument.now) most (rows_of (found_of matches.now)) }
    ensures size { IfSome result (λ s. (1 ≤ length s.now) × (length s.now ≤ most)) }
{
    let text = value_of(matches, argument)?;
    if 1 <= text.len() && text.len() <= most {
        Some(text)
    } else {
        None
    }
}

/// The address of a server.
pub fn address_at<'a>(matches: &ArgMatches<'a>, argument: &Argument<'a>) -> Option<&'a str>
    ensures address { option_map (λ s. s.now) result ≡ address_at (as_listed argument.now) (rows_of (found_of matches.now)) }
    ensures size { IfSome result (λ s. (1 ≤ length s.now) × (length s.now ≤ longest_address)) }
{
    text_at(matches, argument, LONGEST_ADDRESS)
}

/// The order of the bytes of a connection.
pub fn order_at(matches: &ArgMatches<'_>) -> Option<Order>
    ensures { result ≡ order_at (rows_of (found_of matches.now)) }
{
    order_in(value_of(matches, &ORDER)?)
}

/// For how many seconds a dial that is refused is tried again.
pub fn wait_at(matches: &ArgMatches<'_>) -> Option<u32>
    ensures { result ≡ wait_at (rows_of (found_of matches.now)) }
{
    number_at(matches, &WAIT)
}

/// A number, if one was given.
pub fn stated_number_at<'a>(
    matches: &ArgMatches<'a>,
    argument: &Argument<'a>,
) -> Option<Option<u32>>
    ensures { result ≡ stated_number_at (as_listed argument.now) (rows_of (found_of matches.now)) }
{
    match value_of(matches, argument) {
        Some(text) => Some(Some(argument.values.number(text)?)),
        None => Some(None),
    }
}

/// A sample type, if one was given.
pub fn type_at(matches: &ArgMatches<'_>) -> Option<Option<SampleType>>
    ensures { result ≡ type_at (rows_of (found_of matches.now)) }
{
    match value_of(matches, &TYPE) {
        Some(text) => Some(Some(sample_type(text.as_bytes())?)),
        None => Some(None),
    }
}

// The form of a file. Without one, the bytes are samples.
fn form_at(matches: &ArgMatches<'_>) -> Option<Option<SoundForm>>
    ensures { result ≡ form_at (rows_of (found_of matches.now)) }
{
    form_in(value_of(matches, &FILE)?)
}

// A gain.
fn gain_at(matches: &ArgMatches<'_>) -> Option<Gain>
    ensures { result ≡ gain_at (rows_of (found_of matches.now)) }
{
    gain_in(value_of(matches, &GAIN)?.as_bytes())
}

/// Whether a flag was given.
pub fn is_set(matches: &ArgMatches<'_>, argument: &Argument<'_>) -> bool
    ensures { result ≡ is_set (as_listed argument.now) (rows_of (found_of matches.now)) }
{
    match text_of(matches, argument.name) {
        Some(value) => value == "true",
        None => false,
    }
}

fn basics_of(matches: &ArgMatches<'_>) -> Option<CommonOptions>
    ensures value { result ≡ basics_of (rows_of (found_of matches.now)) }
    ensures range { IfSome result (λ basics. (1 ≤ basics.block) × (basics.block ≤ 4000)) }
{
    let device = device_at(matches, &DEVICE)?;
    let ty = type_at(matches)?;
    let gain = gain_at(matches)?;
    let block = block_at(matches)?;
    let time = stated_number_at(matches, &TIME)?;
    Some(CommonOptions {
        device,
        ty,
        gain,
        block,
        time,
    })
}

/// The job of aplay.
pub fn play_job(matches: &ArgMatches<'_>) -> Option<PlayJob>
    ensures value { result ≡ play_job (rows_of (found_of matches.now)) }
    ensures range { IfSome result (λ job. (1 ≤ job.block) × (job.block ≤ 4000)) }
{
    let basics = basics_of(matches)?;
    let form = form_at(matches)?;
    if form.is_some() && basics.ty.is_some() {
        return None;
    }
    let lead = number_at(matches, &LEAD)?;
    let ahead = stated_number_at(matches, &AHEAD)?;
    Some(PlayJob {
        device: basics.device,
        form,
        ty: basics.ty,
        gain: basics.gain,
        block: basics.block,
        lead,
        time: basics.time,
        ahead,
        preempt: is_set(matches, &PREEMPT),
        drain: is_set(matches, &DRAIN),
        strict: is_set(matches, &STRICT),
    })
}

// How much is recorded: so many frames, or so many seconds. Exactly one of the two is stated.
fn length_at(matches: &ArgMatches<'_>) -> Option<(u32, Option<u32>)>
    ensures { result ≡ length_at (rows_of (found_of matches.now)) }
{
    match (
        stated_number_at(matches, &FRAMES)?,
        stated_number_at(matches, &SECONDS)?,
    ) {
        (Some(frames), None) => Some((frames, None)),
        (None, Some(seconds)) => Some((0, Some(seconds))),
        _ => None,
    }
}

/// The job of arecord.
pub fn record_job(matches: &ArgMatches<'_>) -> Option<RecordJob>
    ensures value { result ≡ record_job (rows_of (found_of matches.now)) }
    ensures range { IfSome result (λ job. (1 ≤ job.block) × (job.block ≤ 4000)
        × (1 ≤ job.stop_blocks) × (job.stop_blocks ≤ 1000000)) }
{
    let basics = basics_of(matches)?;
    let form = form_at(matches)?;
    let (frames, seconds) = length_at(matches)?;
    let stop_peak = number_at(matches, &STOP_PEAK)?;
    let stop_blocks = number_at(matches, &STOP_BLOCKS)?;
    Some(RecordJob {
        device: basics.device,
        form,
        ty: basics.ty,
        gain: basics.gain,
        block: basics.block,
        time: basics.time,
        frames,
        seconds,
        stop_peak,
        stop_blocks,
        true_header: is_set(matches, &TRUE_HEADER),
        strict: is_set(matches, &STRICT),
    })
}

// A gain, if one was given.
fn stated_gain_at<'a>(matches: &ArgMatches<'a>, argument: &Argument<'a>) -> Option<Option<Gain>>
    ensures { result ≡ if_there gain_in (value_of (as_listed argument.now) (rows_of (found_of matches.now))) }
{
    match value_of(matches, argument) {
        Some(text) => Some(Some(gain_in(text.as_bytes())?)),
        None => Some(None),
    }
}

// A switch, if one was given: on by the first word, off by the second.
fn switch_at<'a>(
    matches: &ArgMatches<'a>,
    argument: &Argument<'a>,
    when: &str,
    otherwise: &str,
) -> Option<Option<bool>>
    ensures { result ≡ if_there (switch_in when.now otherwise.now)
        (value_of (as_listed argument.now) (rows_of (found_of matches.now))) }
{
    match value_of(matches, argument) {
        Some(text) => Some(Some(switch_in(when, otherwise, text)?)),
        None => Some(None),
    }
}

/// The job of aset.
pub fn set_job(matches: &ArgMatches<'_>) -> Option<SetJob>
    ensures { result ≡ set_job (rows_of (found_of matches.now)) }
{
    let device = device_at(matches, &DEVICE)?;
    let input_gain = stated_gain_at(matches, &INPUT_GAIN)?;
    let output_gain = stated_gain_at(matches, &OUTPUT_GAIN)?;
    let input_on = switch_at(matches, &INPUT, "on", "off")?;
    let output_on = switch_at(matches, &OUTPUT, "on", "off")?;
    let hook_off = switch_at(matches, &HOOK, "off", "on")?;
    Some(SetJob {
        device,
        input_gain,
        output_gain,
        input_on,
        output_on,
        hook_off,
    })
}

/// The job of apass.
pub fn pass_job(matches: &ArgMatches<'_>) -> Option<PassJob>
    ensures value { result ≡ pass_job (rows_of (found_of matches.now)) }
    ensures range { IfSome result IsPaced }
{
    let from_device = device_at(matches, &FROM_DEVICE)?;
    let to_device = device_at(matches, &TO_DEVICE)?;
    let ty = type_at(matches)?;
    let gain = gain_at(matches)?;
    let follow = is_set(matches, &FOLLOW);
    let blocks = stated_number_at(matches, &BLOCKS)?;
    if blocks.is_none() && !follow {
        return None;
    }
    let block = block_at(matches)?;
    let delay = number_at(matches, &DELAY)?;
    let slack = number_at(matches, &SLACK)?;
    Some(PassJob {
        from_device,
        to_device,
        ty,
        gain,
        blocks,
        block,
        delay,
        slack,
        follow,
    })
}
