// What a machine that hears its caller is asked to do.
use af_answer::AnswerJob;
use arrayvec::ArrayString;

/// To take calls, as an answering machine does, and to hear the line meanwhile.
#[derive(Drop)]
pub struct AttendantJob {
    /// What an answering machine is asked to do.
    pub answer: AnswerJob,
    /// The digits that end a command that runs, each one of `0123456789*#ABCD`. There may be none.
    pub until: ArrayString<16>,
    /// Whether a command that runs is ended once the current of the line stops.
    pub hang_up: bool,
    /// The address of the server, as commands find it in their environment.
    pub server: ArrayString<64>,
}
