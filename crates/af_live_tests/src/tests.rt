// One file for each subject.
mod adapters;
mod card_device;
mod children;
mod clock;
mod codec_device;
mod programs;
mod world;
