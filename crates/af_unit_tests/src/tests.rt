// One file for each subject.
mod asserts;
mod bytes_of_a_link;
mod contexts;
mod lines;
mod messages;
mod reference;
mod requests;
mod rings;
mod sound;
mod sound_files;
mod texts;
mod time;
mod waiting;
