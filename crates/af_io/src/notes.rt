// What was done, one entry after the other. It is observable as long as there was memory for each entry.
ghost use Rattle.std.specs.Prelude.{◌≡◌, [], is_some, IfSome};
ghost use Rattle.std.specs.declared.option.Option.TheVariants.{None, Some};
ghost use Rattle.af_io.specs.Notes.{Noted};

use af_time::OutOfMemory;
use std::alloc::Global;
use std::marker::Model;

/// All entries, if they are observed.
#[derive(Drop)]
pub struct Notes<T: Drop> {
    entries: Vec<T>,
    tells: bool,
}

impl<T: Drop> Model for Notes<T> {
    ghost use Rattle.std.specs.Prelude.{List};
    ghost use Rattle.std.specs.declared.option.Option.{Option};
    ghost use Rattle.af_io.specs.Observed.{told_if};

    ghost Value = { Option (List T) };

    ghost view = { λ a. told_if a.tells a.entries.items };
}

impl<T: Drop> Notes<T> {
    /// Nothing was done.
    pub fn new(alloc: Global) -> Notes<T>
        ensures { result ≡ Some [] }
    {
        Notes {
            entries: Vec::new(alloc),
            tells: true,
        }
    }

    /// Whether the entries are observed.
    pub fn tells(&self) -> bool
        ensures { result ≡ is_some self.now }
    {
        self.tells
    }

    /// The entries.
    pub fn entries(&self) -> &[T]
        ensures { IfSome self.now (λ entries. entries ≡ result.now) }
    {
        self.entries.as_slice()
    }

    /// What takes memory for the entries.
    pub fn allocator(&self) -> Global {
        *self.entries.allocator()
    }

    /// Nothing is observed from now on.
    pub fn fall_silent(&mut self)
        ensures { self.new ≡ None }
    {
        self.tells = false;
    }

    /// Adds an entry, for which memory may have run out.
    pub fn add(&mut self, entry: Result<T, OutOfMemory>)
        ensures { Noted self.old entry self.new }
    {
        self.tells = match entry {
            Ok(entry) => self.tells && self.entries.push(entry).is_ok(),
            Err(_) => false,
        };
    }
}
