// The requests of a client.
use af_time::DevTime;

/// A request. Times are those of the context's or the named device.
#[derive(Clone, Copy, Debug, PartialEq, Eq)]
pub enum Request<'a> {
    NoOp,
    GetTime {
        device: u8,
    },
    CreateAc {
        device: u8,
        ac: u32,
        ty: u8,
        channels: u8,
        preempt: u8,
        play_gain: i16,
        record_gain: i16,
    },
    ChangeAc {
        mask: u8,
        ac: u32,
        preempt: u8,
        play_gain: i16,
        record_gain: i16,
    },
    FreeAc {
        ac: u32,
    },
    PlayRun {
        quiet: bool,
        ac: u32,
        time: DevTime,
        samples: &'a [u8],
    },
    RecordRun {
        blocking: bool,
        ac: u32,
        time: DevTime,
        nbytes: u32,
    },
    SelectEvents {
        device: u8,
        mask: u32,
    },
    SetControls {
        device: u8,
        mask: u8,
        input_on: u8,
        output_on: u8,
        input_gain: i16,
        output_gain: i16,
    },
    QueryControls {
        device: u8,
    },
    HookSwitch {
        device: u8,
        off: u32,
    },
    QueryPhone {
        device: u8,
    },
}
