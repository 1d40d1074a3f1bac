// What a logger knows between two blocks, and the lines that it writes.
ghost use Rattle.std.specs.Prelude.{◌≡◌, ◌≤◌, ◌⊎◌, false, true, List};
ghost use Rattle.std.specs.declared.option.Option.TheVariants.{None};
ghost use Rattle.af_logger.specs.Commands.{IfSeen};
ghost use Rattle.af_logger.specs.Keeping.{progress_line, AwaitsNone, AwaitsOf, FailsBy, HasEnded, IsDeskOf, IsLogger, Stays, Tells};
ghost use Rattle.af_logger.specs.Pieces.{Block};
ghost use Rattle.af_logger.specs.Plans.{IsPlan};
ghost use Rattle.af_logger.specs.Story.{HasGone, HasStory, Origin};
ghost use Rattle.af_logger.specs.declared.job.LogJob.{LogJob as AJob};

use crate::commands::Commands;
use crate::line::{LINE_ROOM, write_line};
use crate::plan::Plan;
use crate::progress::Progress;
use af_io::{Put, Sink};
use af_time::DevTime;

/// Between two blocks: the time of the next one, how many pieces were begun, and those whose commands have not ended.
#[derive(Drop)]
pub struct Logger {
    pub plan: Plan,
    pub at: DevTime,
    pub begun: u64,
    /// The piece whose command is waited for while the next piece is recorded.
    pub waiting: Option<Progress>,
    /// The piece that was begun last.
    pub last: Option<Progress>,
    /// A line could not be written.
    pub failed: bool,
}

impl Logger {
    /// Before the first block.
    pub fn new(plan: Plan, start: DevTime) -> Logger
        requires plan { IsPlan plan }
        ensures value { result ≡ record { plan = plan; at = start; begun = 0; waiting = None; last = None; failed = false } }
        ensures logger { IsLogger result }
    {
        Logger {
            plan,
            at: start,
            begun: 0,
            waiting: None,
            last: None,
            failed: false,
        }
    }

    // Writes the line of a piece whose command has ended. No line is written after one that could not be.
    fn tell<K: Sink>(&mut self, piece: Progress, status: u8, sink: &mut K)
        requires piece { piece.handed ≤ piece.recorded }
        ensures same { self.new ≡ record (self.old) { failed = self.new.failed } }
        ensures stays { self.old.failed ≡ true → self.new.failed ≡ true }
        ensures fails { FailsBy self.old.failed self.new.failed (K.faults sink.old) (K.faults sink.new) }
        ensures line { Tells self.old.failed self.new.failed (progress_line piece status) (K.held sink.old) (K.held sink.new) }
    {
        if self.failed {
            return;
        }
        let mut text = [0; LINE_ROOM];
        let length = write_line(&mut text, &piece, status);
        if sink.write(&text[..length]) == Put::Failed {
            self.failed = true;
        }
    }

    /// Looks whether the command that is waited for has ended.
    pub fn look<C: Commands, K: Sink>(&mut self, commands: &mut C, sink: &mut K)
        requires logger { IsLogger self.old }
        requires desk { IfSeen (λ desk. IsDeskOf self.old desk) (C.desk commands.old) }
        ensures logger { IsLogger self.new }
        ensures desk { IfSeen (λ desk. IsDeskOf self.new desk) (C.desk commands.new) }
        ensures same { self.new ≡ record (self.old) { waiting = self.new.waiting; failed = self.new.failed } }
        ensures stays { self.old.failed ≡ true → self.new.failed ≡ true }
        ensures fails { FailsBy self.old.failed self.new.failed (K.faults sink.old) (K.faults sink.new) }
        ensures ended { Stays self.old self.new (C.desk commands.old) (C.desk commands.new) (K.held sink.old) (K.held sink.new)
            ⊎ HasEnded self.old self.new (C.desk commands.old) (C.desk commands.new) (K.held sink.old) (K.held sink.new) }
    {
        let Some(piece) = self.waiting else {
            return;
        };
        if let Some(status) = commands.look() {
            self.waiting = None;
            self.tell(piece, status, sink);
        }
    }

    /// Waits for the end of the command that is waited for. One that still runs so many milliseconds after its piece is killed.
    pub fn finish<C: Commands, K: Sink>(
        &mut self,
        patience: Option<u32>,
        commands: &mut C,
        sink: &mut K,
    )
        requires logger { IsLogger self.old }
        requires desk { IfSeen (λ desk. AwaitsOf self.old desk) (C.desk commands.old) }
        ensures logger { IsLogger self.new }
        ensures desk { AwaitsNone (C.desk commands.old) (C.desk commands.new) }
        ensures same { self.new ≡ record (self.old) { waiting = None; failed = self.new.failed } }
        ensures stays { self.old.failed ≡ true → self.new.failed ≡ true }
        ensures fails { FailsBy self.old.failed self.new.failed (K.faults sink.old) (K.faults sink.new) }
        ensures ended { Stays self.old self.new (C.desk commands.old) (C.desk commands.new) (K.held sink.old) (K.held sink.new)
            ⊎ HasEnded self.old self.new (C.desk commands.old) (C.desk commands.new) (K.held sink.old) (K.held sink.new) }
    {
        let Some(piece) = self.waiting else {
            return;
        };
        let status = commands.finish(patience);
        self.waiting = None;
        self.tell(piece, status, sink);
    }

    /// Closes the last piece, and waits for the ends of all commands.
    pub fn end<C: Commands, K: Sink>(&mut self, commands: &mut C, sink: &mut K)
        requires logger { IsLogger self.old }
        requires desk { IfSeen (λ desk. IsDeskOf self.old desk) (C.desk commands.old) }
        ensures stays { self.old.failed ≡ true → self.new.failed ≡ true }
        ensures fails { FailsBy self.old.failed self.new.failed (K.faults sink.old) (K.faults sink.new) }
        ensures gone { (job : AJob) → (o : Origin) → (blocks : List Block) →
            HasStory false job o blocks self.old (C.desk commands.old) (K.held sink.old) →
            HasGone job o blocks self.old self.new.failed (C.desk commands.new) (K.held sink.new) }
    {
        let Some(piece) = self.last else {
            return;
        };
        commands.close();
        self.finish(None, commands, sink);
        let status = commands.finish(None);
        self.last = None;
        self.tell(piece, status, sink);
    }
}
