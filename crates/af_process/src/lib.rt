//! Child programs that are started, given bytes and waited for: what a caller sees of them,
//! some in memory, and those of the system.
#![tactic(auto)]

mod act;
mod acts;
mod command_line;
mod mem_spawner;
mod running;
mod spawner;
mod std_spawner;

pub use act::{Act, BeganGot, Word, Words, copied_words};
pub use command_line::{CommandLine, command_of};
pub use mem_spawner::MemSpawner;
pub use running::shell_status;
pub use spawner::{Finished, Spawner, Started};
pub use std_spawner::StdSpawner;
