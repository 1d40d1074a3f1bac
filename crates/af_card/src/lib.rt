//! A device whose sound goes to a program, comes from it, or both, and which goes by that program.
#![tactic(auto)]

mod between;
mod card;
mod handing;
mod running;
mod shape;

pub use card::Card;
pub use shape::Shape;
