//! Texts of lines and words, as scripts and configurations are: their lines, the words of a line, and the words that are
//! numbers, sample types, rates and channels.
#![tactic(auto)]

mod lines;
mod numbers;
mod reading;
mod sound;

pub use lines::{is_word, next_line, next_word, one_word, passes_over, two_words};
pub use numbers::{long_number_between, number, number_between};
pub use reading::{LineFault, LineParser, read_lines};
pub use sound::{channel_count, listed_rate, sample_type};
