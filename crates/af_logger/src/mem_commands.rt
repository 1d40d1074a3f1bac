// Commands in memory, for tests. They are not observable by clauses: what each was handed is read from them.
ghost use Rattle.std.specs.Prelude.{◌≡◌, ◌≤◌, length};
ghost use Rattle.std.specs.declared.option.Option.TheVariants.{None};

use crate::commands::{Commands, PieceTerms};
use af_time::OutOfMemory;
use std::alloc::Global;

/// What the command of a piece does.
#[derive(Clone, Copy)]
pub struct MemPlan {
    /// How many bytes it takes at most.
    pub takes: usize,
    /// How many looks find that it runs. None: it runs until it is waited for.
    pub looks: Option<u32>,
    /// Its status. One that is waited for with a limit, and has no look left, has 137.
    pub status: u8,
}

/// A command that was started: its text, its terms, and what it took.
#[derive(Drop)]
pub struct MemCommand {
    pub text: String,
    pub terms: PieceTerms,
    pub taken: Vec<u8>,
    pub closed: bool,
}

/// Commands that go by plans, in the order of their starts. One past the plans takes all, and ends at the first look with 0.
#[derive(Drop)]
pub struct MemCommands {
    plans: Vec<MemPlan>,
    commands: Vec<MemCommand>,
    // how many have ended, and how often the next one was looked at
    ended: usize,
    looks: u32,
}

const AT_ONCE: MemPlan = MemPlan {
    takes: usize::MAX,
    looks: Some(0),
    status: 0,
};

impl MemCommands {
    /// Commands with these plans. None runs.
    pub fn new(alloc: Global, plans: &[MemPlan]) -> Result<MemCommands, OutOfMemory> {
        Ok(MemCommands {
            plans: Vec::from_slice(alloc, plans)?,
            commands: Vec::new(alloc),
            ended: 0,
            looks: 0,
        })
    }

    /// The commands that were started, in order.
    pub fn commands(&self) -> &[MemCommand] {
        self.commands.as_slice()
    }

    /// How many have ended.
    pub fn ended(&self) -> usize {
        self.ended
    }

    // The plan of the command with a place.
    fn plan(&self, place: usize) -> MemPlan {
        match self.plans.get(place) {
            Some(plan) => *plan,
            None => AT_ONCE,
        }
    }

    // The oldest that runs has ended.
    fn end(&mut self) {
        self.ended = self.ended.saturating_add(1);
        self.looks = 0;
    }
}

// A command that was started now.
fn begun(alloc: Global, text: &str, terms: PieceTerms) -> Result<MemCommand, OutOfMemory> {
    Ok(MemCommand {
        text: String::from_str(alloc, text)?,
        terms,
        taken: Vec::new(alloc),
        closed: false,
    })
}

impl Commands for MemCommands {
    ghost desk = { λ _. None };

    fn start(&mut self, alloc: Global, text: &str, terms: PieceTerms) {
        if let Ok(command) = begun(alloc, text, terms) {
            let _ = self.commands.push(command);
        }
    }

    fn hand(&mut self, bytes: &[u8], _patience: u32) -> usize
        ensures bound { result ≤ length bytes.now }
    {
        let plan = self.plan(self.commands.len().saturating_sub(1));
        let Some(command) = self.commands.last_mut() else {
            return 0;
        };
        let room = plan.takes.saturating_sub(command.taken.len());
        let count = room.min(bytes.len());
        match command.taken.extend_from_slice(&bytes[..count]) {
            Ok(()) => count,
            Err(_) => 0,
        }
    }

    fn close(&mut self) {
        if let Some(command) = self.commands.last_mut() {
            command.closed = true;
        }
    }

    fn look(&mut self) -> Option<u8> {
        let plan = self.plan(self.ended);
        match plan.looks {
            Some(looks) if looks <= self.looks => {
                self.end();
                Some(plan.status)
            }
            _ => {
                self.looks = self.looks.saturating_add(1);
                None
            }
        }
    }

    fn finish(&mut self, patience: Option<u32>) -> u8 {
        let plan = self.plan(self.ended);
        let looked = self.looks;
        self.end();
        match (patience, plan.looks) {
            (None, _) => plan.status,
            (Some(_), Some(looks)) if looks <= looked => plan.status,
            _ => 137,
        }
    }
}
