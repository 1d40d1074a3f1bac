// The arguments of the tools: the parser, the help and the details read them here. Servers come first, then what has to be there.
use crate::argument::{Absent, Argument, Values};
use crate::job::{MOST_FRAMES, MOST_SECONDS, MOST_WAIT};

/// The server of a tool that has one.
pub const SERVER: Argument<'static> = Argument {
    name: "SERVER",
    values: Values::Address,
    absent: Absent::Missing,
    what: "the address of a server",
};

pub(crate) const FROM: Argument<'static> = Argument {
    name: "FROM",
    ..SERVER
};

pub(crate) const TO: Argument<'static> = Argument {
    name: "TO",
    ..SERVER
};

/// The device that a tool works with.
pub const DEVICE: Argument<'static> = Argument {
    name: "device",
    values: Values::Device,
    absent: Absent::Default("0"),
    what: "the device",
};

pub(crate) const FROM_DEVICE: Argument<'static> = Argument {
    name: "from-device",
    what: "the device that is recorded",
    ..DEVICE
};

pub(crate) const TO_DEVICE: Argument<'static> = Argument {
    name: "to-device",
    what: "the device that is played to",
    ..DEVICE
};

/// The byte order of a connection.
pub const ORDER: Argument<'static> = Argument {
    name: "order",
    values: Values::Order,
    absent: Absent::Default("big"),
    what: "which byte of a number comes first on the connection",
};

/// For how long a server is waited for that is not there yet.
pub const WAIT: Argument<'static> = Argument {
    name: "wait",
    values: Values::Number(0, MOST_WAIT),
    absent: Absent::Default("0"),
    what: "seconds for which a connection that is refused is tried again",
};

pub(crate) const FILE: Argument<'static> = Argument {
    name: "file",
    values: Values::Form,
    absent: Absent::Default("raw"),
    what: "what standard input gives: samples, or a sound file",
};

pub(crate) const TYPE: Argument<'static> = Argument {
    name: "type",
    values: Values::SampleType,
    absent: Absent::Otherwise("that of the device"),
    what: "the type of the samples",
};

pub(crate) const GAIN: Argument<'static> = Argument {
    name: "gain",
    values: Values::Decibels,
    absent: Absent::Default("0"),
    what: "decibels by which it is played louder, or softer",
};

pub(crate) const BLOCK: Argument<'static> = Argument {
    name: "block",
    values: Values::Number(1, 4000),
    absent: Absent::Default("1000"),
    what: "frames that one request plays",
};

pub(crate) const TIME: Argument<'static> = Argument {
    name: "time",
    values: Values::Number(0, 4294967295),
    absent: Absent::Otherwise("now"),
    what: "the device time of the first frame",
};

// What aplay has.
pub(crate) const LEAD: Argument<'static> = Argument {
    name: "lead",
    values: Values::Number(0, 60000),
    absent: Absent::Default("100"),
    what: "milliseconds from now to the first frame",
};

pub(crate) const AHEAD: Argument<'static> = Argument {
    name: "ahead",
    values: Values::Number(20, 4000),
    absent: Absent::Otherwise("as soon as the server takes it"),
    what: "milliseconds by which a block is sent before its time at most",
};

pub(crate) const PREEMPT: Argument<'static> = Argument {
    name: "preempt",
    values: Values::Flag,
    absent: Absent::Otherwise(""),
    what: "replaces what was played before for the same times",
};

pub(crate) const DRAIN: Argument<'static> = Argument {
    name: "drain",
    values: Values::Flag,
    absent: Absent::Otherwise(""),
    what: "ends only once the device has handed out the last frame",
};

// What aplay and arecord have.
pub(crate) const STRICT: Argument<'static> = Argument {
    name: "strict",
    values: Values::Flag,
    absent: Absent::Otherwise(""),
    what: "ends with status 24 if a frame came too late to be heard",
};

// What arecord has.
pub(crate) const FRAMES: Argument<'static> = Argument {
    name: "frames",
    values: Values::Number(1, MOST_FRAMES),
    absent: Absent::Either,
    what: "frames that are recorded at most",
};

pub(crate) const SECONDS: Argument<'static> = Argument {
    name: "seconds",
    values: Values::Number(1, MOST_SECONDS),
    absent: Absent::Either,
    what: "seconds that are recorded at most",
};

pub(crate) const STOP_PEAK: Argument<'static> = Argument {
    name: "stop-peak",
    values: Values::Number(0, 32768),
    absent: Absent::Default("0"),
    what: "a block whose peak is below this is quiet",
};

pub(crate) const STOP_BLOCKS: Argument<'static> = Argument {
    name: "stop-blocks",
    values: Values::Number(1, 1000000),
    absent: Absent::Default("1"),
    what: "quiet blocks in a row that end the recording",
};

pub(crate) const TRUE_HEADER: Argument<'static> = Argument {
    name: "true-header",
    values: Values::Flag,
    absent: Absent::Otherwise(""),
    what: "keeps the header of a file true to what was written, as --seconds does",
};

// What aset has.
pub(crate) const INPUT: Argument<'static> = Argument {
    name: "input",
    values: Values::Switch,
    absent: Absent::Otherwise("as it is"),
    what: "whether what the device captures is kept",
};

pub(crate) const INPUT_GAIN: Argument<'static> = Argument {
    name: "input-gain",
    values: Values::Decibels,
    absent: Absent::Otherwise("as it is"),
    what: "decibels by which what is captured is louder, or softer",
};

pub(crate) const OUTPUT: Argument<'static> = Argument {
    name: "output",
    values: Values::Switch,
    absent: Absent::Otherwise("as it is"),
    what: "whether what was played is handed out",
};

pub(crate) const OUTPUT_GAIN: Argument<'static> = Argument {
    name: "output-gain",
    values: Values::Decibels,
    absent: Absent::Otherwise("as it is"),
    what: "decibels by which what is handed out is louder, or softer",
};

pub(crate) const HOOK: Argument<'static> = Argument {
    name: "hook",
    values: Values::Switch,
    absent: Absent::Otherwise("as it is"),
    what: "whether the telephone is on the hook",
};

// What apass has.
pub(crate) const BLOCKS: Argument<'static> = Argument {
    name: "blocks",
    values: Values::Number(1, 1000000),
    absent: Absent::Unless("follow"),
    what: "how many blocks are passed",
};

pub(crate) const DELAY: Argument<'static> = Argument {
    name: "delay",
    values: Values::Number(0, 3000),
    absent: Absent::Default("200"),
    what: "milliseconds that a block is played ahead of the time of TO",
};

pub(crate) const SLACK: Argument<'static> = Argument {
    name: "slack",
    values: Values::Number(0, 3000),
    absent: Absent::Default("100"),
    what: "milliseconds of drift before the relay resynchronises",
};

pub(crate) const FOLLOW: Argument<'static> = Argument {
    name: "follow",
    values: Values::Flag,
    absent: Absent::Otherwise(""),
    what: "follows the clock of TO by a frame of a block, twice or left out",
};

pub(crate) static PLAY: [Argument<'static>; 14] = [
    SERVER,
    DEVICE,
    FILE,
    Argument {
        what: "the type of the samples; a file says its own",
        ..TYPE
    },
    GAIN,
    BLOCK,
    LEAD,
    Argument {
        absent: Absent::Otherwise("now and the lead"),
        ..TIME
    },
    AHEAD,
    PREEMPT,
    DRAIN,
    STRICT,
    ORDER,
    WAIT,
];

pub(crate) static RECORD: [Argument<'static>; 15] = [
    SERVER,
    FRAMES,
    SECONDS,
    DEVICE,
    Argument {
        what: "what is written: samples, or a sound file",
        ..FILE
    },
    TYPE,
    Argument {
        what: "decibels by which it is recorded louder, or softer",
        ..GAIN
    },
    Argument {
        what: "frames that one request records",
        ..BLOCK
    },
    TIME,
    STOP_PEAK,
    STOP_BLOCKS,
    TRUE_HEADER,
    Argument {
        what: "ends with status 24 if a frame had left the server before it was asked for",
        ..STRICT
    },
    ORDER,
    WAIT,
];

pub(crate) static SET: [Argument<'static>; 9] = [
    SERVER,
    DEVICE,
    INPUT,
    INPUT_GAIN,
    OUTPUT,
    OUTPUT_GAIN,
    HOOK,
    ORDER,
    WAIT,
];

pub(crate) static PASS: [Argument<'static>; 13] = [
    FROM,
    TO,
    BLOCKS,
    FROM_DEVICE,
    TO_DEVICE,
    Argument {
        absent: Absent::Otherwise("that of the device that is recorded"),
        ..TYPE
    },
    Argument {
        what: "decibels by which it is passed on louder, or softer",
        ..GAIN
    },
    Argument {
        what: "frames of a block",
        ..BLOCK
    },
    DELAY,
    SLACK,
    FOLLOW,
    Argument {
        what: "which byte of a number comes first on both connections",
        ..ORDER
    },
    WAIT,
];

pub(crate) static LIST: [Argument<'static>; 3] = [SERVER, ORDER, WAIT];
