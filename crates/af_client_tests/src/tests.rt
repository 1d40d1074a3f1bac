// One file for each subject.
mod answer;
mod attendant;
mod checks;
mod connection;
mod conversation;
mod environment;
mod jobs;
mod log;
mod tools;
