// A reply that a server holds back until its time.
use crate::counted::Counted;
use crate::talk::Talk;
use af_time::DevTime;

/// For how many seconds a reply is waited for without a word.
const QUIET_SECONDS: u32 = 2;

/// What a server answers once its device has this time, in some seconds.
#[derive(Clone, Copy)]
pub struct Due {
    time: DevTime,
    seconds: u32,
}

impl Due {
    /// What is due at this time of a device that has that time now. None if that is soon, or past.
    pub fn at(time: DevTime, now: DevTime, rate: u32) -> Option<Due> {
        let frames = u32::try_from(time.diff(now)).ok()?;
        let seconds = frames.checked_div(rate)?;
        if seconds >= QUIET_SECONDS {
            Some(Due { time, seconds })
        } else {
            None
        }
    }
}

/// Tells what a server is waited for.
pub fn tell_due(rt: &impl Eprint, talk: &Talk, due: Due) {
    let address = talk.shown_address();
    let time = due.time.0;
    let seconds = Counted(u64::from(due.seconds), "second");
    let _ = eprintln!(rt; "af: waiting for device time {time} of {address}, {seconds} from now");
}
