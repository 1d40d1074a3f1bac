// What an answering machine is asked to do.
use arrayvec::ArrayString;

/// To take calls. Greeting and message are texts that a shell runs as its command.
#[derive(Drop)]
pub struct AnswerJob {
    /// The number of the device whose line is attended, 0..7.
    pub device: u8,
    /// At which ring a call is taken, 1..20.
    pub rings: u32,
    /// How many calls are taken, 1..1000.
    pub calls: u32,
    /// What plays the greeting, 1..200 bytes.
    pub greeting: ArrayString<200>,
    /// What records the message after a greeting that ended well, 1..200 bytes.
    pub message: ArrayString<200>,
}
