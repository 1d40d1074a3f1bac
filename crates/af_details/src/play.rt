// Details of a play: a file that does not fit, and frames that came too late.
use crate::asked::channels_text;
use crate::counted::Counted;
use crate::file::{Unplayable, ending, is_for_ffmpeg, taken_for_samples};
use crate::lost::{tell_greater, tell_late};
use crate::source::WatchedSource;
use crate::talk::Talk;
use af_cli::PlayJob;
use af_io::Source;
use af_sound::SoundForm;
use af_toolkit::ToolEnd;

/// The greatest lead that may be asked for, in milliseconds.
const LONGEST_LEAD: u64 = 60_000;

/// Tells what is wrong with a sound file, and what makes one that can be played.
pub fn tell_sound<S: Source + Drop>(
    rt: &impl Eprint,
    job: &PlayJob,
    end: ToolEnd,
    talk: &Talk,
    source: &WatchedSource<S>,
) {
    let Some(form) = job.form else {
        return;
    };
    match end {
        ToolEnd::BadSound { fault } => {
            let file = Unplayable {
                form,
                fault,
                first: source.first(),
            };
            let _ = eprintln!(rt; "af: standard input is {file}");
            if !file.is_sound() {
                return;
            }
        }
        ToolEnd::RateMismatch { from, to } => tell_rates(rt, job, talk, from, to),
        ToolEnd::ChannelMismatch { from, to } => tell_channels(rt, job, talk, from, to),
        ToolEnd::SoundCut => {
            let count = Counted(source.count(), "byte");
            let _ = eprintln!(rt;
                "af: standard input ended after {count}, inside the head of the file"
            );
            return;
        }
        _ => return,
    }
    tell_remedy(rt, job, form, talk, source.first());
}

/// Tells that a sound file was taken for raw samples, and which words play it.
pub fn tell_samples<S: Source + Drop>(
    rt: &impl Eprint,
    job: &PlayJob,
    talk: &Talk,
    source: &WatchedSource<S>,
) {
    let Some(file) = taken_for_samples(source.first()) else {
        return;
    };
    let kind = file.kind;
    let _ = eprintln!(rt; "af: standard input is {kind}, and was taken for raw samples");
    match file.form {
        Some(SoundForm::Wave) => {
            let _ = eprintln!(rt; "af: --file=wave plays it");
        }
        Some(SoundForm::Au) => {
            let _ = eprintln!(rt; "af: --file=au plays it");
        }
        None => {
            tell_remedy(rt, job, SoundForm::Wave, talk, source.first());
            let _ = eprintln!(rt; "af: --file=wave plays that file");
        }
    }
}

fn tell_rates(rt: &impl Eprint, job: &PlayJob, talk: &Talk, from: u32, to: u32) {
    let device = job.device;
    let address = talk.shown_address();
    let _ = eprintln!(rt;
        "af: the file has {from} frames a second, and device {device} of {address} has {to}"
    );
}

fn tell_channels(rt: &impl Eprint, job: &PlayJob, talk: &Talk, from: u8, to: u8) {
    let device = job.device;
    let address = talk.shown_address();
    let from = channels_text(from);
    let to = channels_text(to);
    let _ = eprintln!(rt; "af: the file has {from}, and device {device} of {address} has {to}");
}

// Tells which command makes a file that the device plays, of one that begins with these bytes.
fn tell_remedy(rt: &impl Eprint, job: &PlayJob, form: SoundForm, talk: &Talk, first: &[u8]) {
    if let Some(info) = talk.devices.get(usize::from(job.device)) {
        let device = job.device;
        let rate = info.rate;
        let channels = info.channels;
        let ending = ending(form);
        let _ = if is_for_ffmpeg(first) {
            eprintln!(rt;
                "af: this makes a file that device {device} plays: ffmpeg -i IN -ar {rate} -ac {channels} OUT.{ending}"
            )
        } else {
            eprintln!(rt;
                "af: this makes a file that device {device} plays: sox IN -r {rate} -c {channels} -b 16 OUT.{ending}"
            )
        };
    }
}

/// Tells which frames were not heard, and of a file that has sound though its header says none.
pub fn tell_played<S: Source + Drop>(
    rt: &impl Eprint,
    job: &PlayJob,
    end: ToolEnd,
    talk: &Talk,
    source: &mut WatchedSource<S>,
) {
    if talk.late.frames > 0 {
        tell_late(rt, talk.late);
        match job.time {
            Some(time) => {
                let enough = time.wrapping_add(talk.late.latest);
                let _ = eprintln!(rt;
                    "af: a later --time helps; it was {time}, and {enough} would have been enough"
                );
            }
            None => {
                let enough = talk.enough_millis(job.device, job.lead, LONGEST_LEAD);
                tell_greater(rt, "lead", job.lead, enough);
            }
        }
        if let Some(ahead) = job.ahead {
            tell_greater(rt, "ahead", ahead, None);
        }
    }
    let silent = end == ToolEnd::Done && job.form.is_some() && talk.passage.blocks == 0;
    if silent && source.gives_more() {
        let _ = eprintln!(rt;
            "af: the head of the file says 0 samples, as a writer leaves it that could not go back; more bytes follow"
        );
        let _ = eprintln!(rt;
            "af: this makes a file that says how many: sox --ignore-length IN OUT.wav"
        );
    }
}
