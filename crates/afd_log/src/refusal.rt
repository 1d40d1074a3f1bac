// What the system refused, and why.
use af_io::Reason;

/// A file or a program that the system refused, by its name, and why.
#[derive(Drop)]
pub struct Refusal {
    pub name: String,
    pub reason: Reason,
}
