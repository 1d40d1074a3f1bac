//! Laws from the bytes that a client sends to what leaves the device.
#![tactic(auto)]

ghost use Rattle.std.specs.Prelude.{List};
ghost use Rattle.af_world.specs.declared.script.DeviceSpec.{DeviceSpec};
ghost use Rattle.af_world.specs.Log.{Log};
ghost use Rattle.af_end_to_end.specs.Aplay.{AplayIsHeard};
ghost use Rattle.af_end_to_end.specs.Apass.{ApassIsHeard};
ghost use Rattle.af_end_to_end.specs.Arecord.{ArecordIsHeld};
ghost use Rattle.af_end_to_end.specs.Performing.{PerformsInTurns};
ghost use Rattle.af_end_to_end.specs.Playing.{PlaysInRun};
ghost use Rattle.af_end_to_end.specs.Sent.{ReadsWhatIsSent};
ghost use Rattle.af_end_to_end.specs.Sounding.{IsHeardInRun};
ghost use Rattle.af_end_to_end.specs.Speaker.{JobsAreHanded, SpeakersAreHanded};
ghost use Rattle.af_end_to_end.specs.Told.{IsAnsweredInRun};

/// What is sent is what is read. Suppose that a client sends a setup and then requests, and that all bytes that its link gave so
/// far, in whatever pieces, are the first of these. Then the server has read the first of these requests, in their order and each
/// once. It has read all that is complete, unless a request of the link is deferred or too much waits to be sent. It does not
/// close the link as malformed, nor for a bad setup.
pub fn reading_law()
    ensures { (config : List DeviceSpec) (log : Log) → ReadsWhatIsSent config log }
{}

/// What a link performs. A link that is open before a turn, and open and not closing after it, performs in the turn the requests
/// that it takes off its input, in their order, each once. Its contexts become what they make of them. Each play among them, with
/// the gain and the preempt of its context as it is then, is accepted or deferred at the time that it means at the device's time
/// after the turn. What was deferred before still is, or completes.
pub fn performing_law()
    ensures { PerformsInTurns }
{}

/// What is played. From each state of a run on, through any turns in which a link stays open, the link performs the requests that
/// it takes off its input, in their order, each once. Each play among them is accepted: from the time on that it means at the
/// device's time after its turn, with the gain and the preempt of its context as it is then, at once or by its start. Or it is
/// still deferred after these turns.
pub fn playing_law()
    ensures { (config : List DeviceSpec) (log : Log) → PlaysInRun config log }
{}

/// What a client sends is heard. From where a link was opened in a run, as long as it stays open, suppose that what it gave is
/// the first of what a client sends. Then it performed the first of these requests, in their order, each once. Each play among
/// them that was performed in time is among the plays that its device has accepted, at its time, once nothing of the link is
/// deferred. And in all that the device emits, where no other play covers a time, its samples are at their places, as the output
/// control lets them through.
pub fn sounding_law()
    ensures { (config : List DeviceSpec) (log : Log) → IsHeardInRun config log }
{}

/// What a client is told that only records. From where its link was opened in a run, as long as it stays open, suppose that what
/// it gave is the first of what the client sends. Then the link is told of the first of these requests, in their order, each
/// once, but not yet of the last one if that is deferred. A Record that is not refused is answered with what its device captured,
/// from the time on that it meant when it was performed.
pub fn answering_law()
    ensures { (config : List DeviceSpec) (log : Log) → IsAnsweredInRun config log }
{}

/// From aplay to the loudspeaker. Take a job that aplay has done, and a run in which its link gave the first of the bytes that it
/// sent, in whatever pieces, since the link was opened. Suppose that the device is there, with the channels that aplay was told,
/// and that all requests were performed, each play in time for its place from a whole start on. Then each block has an entry of
/// its own among the plays that the device has accepted, at its time. And if no other entry covers these times, all that the
/// device emits has the samples of the source at their times, under the gain of the job, as the output control lets them through.
pub fn aplay_law()
    ensures { (config : List DeviceSpec) (log : Log) → AplayIsHeard config log }
{}

/// From a device to what arecord writes. Take a job that arecord has done, and a run in which its link gave the first of the
/// bytes that it sent, in whatever pieces, since the link was opened. Suppose that the device is there, with the channels that
/// arecord was told, and that the job went by the first of what its link was told after its setup. Then each block that it wrote
/// is what the device held, from the whole time on that the block means: in each channel what was captured at that time, if that
/// was within four seconds as the Record was answered, and else silence, under the gain of the job.
pub fn arecord_law()
    ensures { (config : List DeviceSpec) (log : Log) → ArecordIsHeld config log }
{}

/// From a device of one server to a device of another. Take a relay that has passed all blocks of its job, and two runs in which
/// its links gave the first of the bytes that it sent on each, in whatever pieces, since they were opened. Suppose that both
/// devices are there, with the channels that apass was told. Suppose that it went by the first of what its recording link was
/// told after the setup, and that each play was performed in time for its place. Then each block is what the one device held,
/// from the whole time on that the block means, under the gain of the job. It has an entry among the plays that the other device
/// has accepted, at its place. And where no other play covers a time, all that this device emits has the samples of the block,
/// as the output control lets them through.
pub fn apass_law()
    ensures { ApassIsHeard }
{}

/// From a device to the program of its loudspeaker. Suppose that the acts of the program keep to what a card promises, and that
/// the sounds that they say were emitted are those that the device emitted in a run. Then each program that ran took the sounds
/// that the device emitted while it ran, from its standard input, in order and none left out. It is still owed a hundredth of a
/// second at most. And if a job of aplay sounds on the device, and nobody else plays at its times, each of these sounds has the
/// samples of the source at their times.
pub fn speaker_law()
    ensures handed { SpeakersAreHanded }
    ensures jobs { JobsAreHanded }
{}
