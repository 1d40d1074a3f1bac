//! What the tools are asked to do, by their words.
#![tactic(auto)]

mod argument;
mod arguments;
mod block;
mod call;
mod command;
mod digits;
mod events;
mod job;
mod number;
mod tool;
mod values;
mod words;

pub use argument::{Absent, Argument, Values};
pub use arguments::{DEVICE, ORDER, SERVER, WAIT};
pub use block::{GREATEST_BLOCK, GREATEST_PLAY, block_frames};
pub use call::{Call, OptionsFault, RelayCall, TaskCall, call_of, true_form_of};
pub use command::{matches_for, text_of, value_of};
pub use digits::{MOST_DIGITS, has_digit, is_digit, states_digits};
pub use events::{DeviceChoice, EventKinds, choice_in, kind_name, kinds_in};
pub use job::{PassJob, PlayJob, RecordJob, SetJob, Task};
pub use number::form_in;
pub use tool::{Tool, tool_named};
pub use values::LONGEST_COMMAND;
pub use words::{
    address_at, block_at, device_at, is_set, number_at, order_at, stated_number_at, text_at,
    type_at, wait_at,
};
