// One file for each subject.
mod card;
mod codec;
mod exchange;
mod programs;
