// One file for each subject.
mod checks;
mod configuration;
mod exercise;
mod memory;
mod phones;
mod scripts;
mod served;
mod serving;
mod tape;
mod transcripts;
