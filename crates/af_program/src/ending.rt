// Programs that were told to end, until they have.
ghost use Rattle.std.specs.Prelude.{◌≡◌, ◌↔◌, ◌≤◌, ◌<◌, ◌+◌, IsTrue};
ghost use Rattle.std.specs.Vec.{vec_len, vec_capacity};

use af_process::shell_status;
use std::process::{Child, OpenProcess};

/// How many nanoseconds a program has to end by itself.
const END_NANOS: u64 = 200_000_000;

/// A program that was ended at a moment.
#[derive(Drop)]
pub(crate) struct Ending<P: OpenProcess + Drop> {
    pub(crate) child: Child<P>,
    pub(crate) since: u64,
    /// Whether none was ended after it.
    pub(crate) is_last: bool,
}

impl<P: OpenProcess + Drop> Ending<P> {
    /// Whether it has to be looked after further. One that had its time is killed. The status of the last one is noted.
    fn is_kept(&mut self, at: u64, last: &mut Option<i32>) -> bool {
        match self.child.try_wait() {
            Ok(Some(status)) => {
                if self.is_last {
                    *last = Some(shell_status(status));
                }
                false
            }
            Ok(None) => {
                if is_late(self.since, at) {
                    let _ = self.child.kill();
                }
                true
            }
            Err(_) => false,
        }
    }
}

/// Has a program that was ended at a moment looked after.
pub(crate) fn keep<P: OpenProcess + Drop>(ending: &mut Vec<Ending<P>>, child: Child<P>, at: u64)
    requires room { vec_len ending.old < vec_capacity ending.old }
    ensures count { vec_len ending.new ≡ vec_len ending.old + 1 }
    ensures capacity { vec_capacity ending.new ≡ vec_capacity ending.old }
{
    if let Some(before) = ending.last_mut() {
        before.is_last = false;
    }
    ending.push_reserved(Ending {
        child,
        since: at,
        is_last: true,
    });
}

/// Looks after programs that were ended, and lets those go that have. The status of the last one, if it is among these.
pub(crate) fn tend<P: OpenProcess + Drop>(ending: &mut Vec<Ending<P>>, at: u64) -> Option<i32>
    ensures count { vec_len ending.new ≤ vec_len ending.old }
    ensures capacity { vec_capacity ending.new ≡ vec_capacity ending.old }
{
    let mut last = None;
    ending.retain_mut(|program| program.is_kept(at, &mut last));
    last
}

/// Whether a program that was ended at a moment has had its time.
fn is_late(since: u64, at: u64) -> bool
    ensures { IsTrue result ↔ (since + 200_000_000 ≤ at) }
{
    at.saturating_sub(since) >= END_NANOS
}
