//! The opcode of each request. Replies and errors name it to say what they answer.

/// A setup has no opcode: 0 stands for it in its reply and its error.
pub const SETUP: u8 = 0;

/// Does nothing, and gets no reply.
pub const NO_OP: u8 = 1;

/// Asks for the time of a device.
pub const GET_TIME: u8 = 2;

/// Creates an audio context.
pub const CREATE_AC: u8 = 3;

/// Changes the settings of a context.
pub const CHANGE_AC: u8 = 4;

/// Frees a context.
pub const FREE_AC: u8 = 5;

/// Plays samples.
pub const PLAY: u8 = 6;

/// Records samples.
pub const RECORD: u8 = 7;

/// Selects which events of a device a link gets.
pub const SELECT_EVENTS: u8 = 8;

/// Sets the gains and switches of a device.
pub const SET_CONTROLS: u8 = 9;

/// Asks for the gains and switches of a device.
pub const QUERY_CONTROLS: u8 = 10;

/// Takes a telephone line off the hook, or hangs it up.
pub const HOOK_SWITCH: u8 = 11;

/// Asks for the state of a telephone line.
pub const QUERY_PHONE: u8 = 12;
