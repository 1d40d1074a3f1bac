// The links that a world holds, by number.
// Layout: a table with a place for each number, and bounds on the numbers of links with something ready. A search looks only
// between the bounds, and nowhere if nothing is ready.
ghost use Rattle.std.specs.Prelude.{◌≡◌, ◌<◌, ◌+◌, min, max, true, length, option_map, replicate, slice_set, IfSome};
ghost use Rattle.std.specs.declared.option.Option.TheVariants.{Some};
ghost use Rattle.af_limits.specs.Limits.{most_links};
ghost use Rattle.af_live.specs.LinkTable.{free_entry, link_at, new_link, AreDrained, IsLeastFree, GivesFirst, LinkWakeFits, Opens};
ghost use Rattle.af_live.specs.Polls.{NotesAt};
ghost use Rattle.af_live.specs.Shares.{all_renewed, some_cut, with_new_share};

use crate::link_table::{
    LinkEntry, Readiness, first_ready, free_number, held_at, is_cut, is_drained, least_free,
    note_told, renew, take_first,
};
use af_limits::MOST_LINKS;
use af_world::Wake;
use std::marker::Model;

/// The numbers between which all links with something ready are.
#[derive(Clone, Copy)]
struct ReadySpan {
    from: usize,
    below: usize,
}

/// Nothing is ready of any link.
const NONE_READY: ReadySpan = ReadySpan {
    from: MOST_LINKS,
    below: 0,
};

impl ReadySpan {
    /// Something may be ready of this link too.
    fn include(&mut self, number: usize)
        requires { number < most_links }
        ensures { self.new ≡ record { from = min self.old.from number; below = max self.old.below (number + 1) } }
    {
        self.from = self.from.min(number);
        self.below = self.below.max(number + 1);
    }
}

/// The links that are held. Clauses see a place for each number.
#[derive(Drop)]
pub(crate) struct HeldLinks {
    entries: [Option<LinkEntry>; MOST_LINKS],
    ready: ReadySpan,
    /// The least number that no link has had, nor any after it: a poll looks no further.
    end: usize,
}

impl Model for HeldLinks {
    ghost use Rattle.std.specs.Prelude.{◌≡◌, ◌≤◌, List, length};
    ghost use Rattle.std.specs.declared.option.Option.{Option};
    ghost use Rattle.af_limits.specs.Limits.{most_links};
    ghost use Rattle.af_live.specs.declared.link_table.LinkEntry.{LinkEntry};
    ghost use Rattle.af_live.specs.LinkTable.{NothingReadyBelow, NothingReadyFrom};
    ghost use Rattle.af_live.specs.Shares.{NoneHeldFrom};

    ghost Value = { List (Option LinkEntry) };

    ghost view = { λ h. h.entries };

    ghost invariant = { λ h. (length h.entries ≡ most_links) × (h.ready.below ≤ most_links)
        × NothingReadyBelow h.ready.from h.entries × NothingReadyFrom h.ready.below h.entries
        × (h.end ≤ most_links) × NoneHeldFrom h.end h.entries };
}

impl HeldLinks {
    /// No link is held.
    pub fn new() -> HeldLinks
        ensures { result ≡ replicate most_links free_entry }
    {
        HeldLinks {
            entries: [None; MOST_LINKS],
            ready: NONE_READY,
            end: 0,
        }
    }

    /// The link with a number, if it is held.
    pub fn get(&self, number: u8) -> Option<LinkEntry>
        ensures { result ≡ link_at self.now number }
    {
        held_at(&self.entries, number)
    }

    /// The least number that no link has.
    pub fn least_free(&self) -> Option<usize>
        ensures { IsLeastFree self.now result }
    {
        least_free(&self.entries)
    }

    /// A new link is held, whose stream has this key.
    pub fn hold(&mut self, number: usize, key: usize)
        ensures { self.new ≡ slice_set self.old number (Some (new_link key)) }
    {
        if number < self.entries.len() {
            self.entries[number] = Some(LinkEntry::new(key));
            self.end = self.end.max(number + 1);
            self.ready.include(number);
        }
    }

    /// A link is no longer held.
    pub fn free(&mut self, number: u8)
        ensures { self.new ≡ slice_set self.old number free_entry }
    {
        free_number(&mut self.entries, number);
    }

    /// Notes what an event tells of a link.
    pub fn note(&mut self, number: usize, told: Readiness)
        ensures { NotesAt number told self.old self.new }
    {
        if number < self.entries.len() {
            note_told(&mut self.entries[number], told);
            self.ready.include(number);
        }
    }

    /// What is known of a link that is held is this from now on.
    pub fn put(&mut self, number: u8, link: LinkEntry)
        ensures { self.new ≡ slice_set self.old number (Some link) }
    {
        let number = usize::from(number);
        if number < self.entries.len() {
            self.entries[number] = Some(link);
            self.end = self.end.max(number + 1);
            if link.readable || link.writable || link.opened {
                self.ready.include(number);
            }
        }
    }

    /// Whether all that had come by each link was read.
    pub fn are_drained(&self) -> bool
        ensures { result ≡ true → AreDrained self.now }
    {
        for number in 0..self.end {
            if !is_drained(&self.entries[number]) {
                return false;
            }
        }
        true
    }

    /// Whether a link is cut.
    pub fn some_cut(&self) -> bool
        ensures { result ≡ some_cut self.now }
    {
        for number in 0..self.end {
            if is_cut(&self.entries[number]) {
                return true;
            }
        }
        false
    }

    /// Gives a link a new share.
    fn renew(&mut self, number: usize)
        ensures { self.new ≡ slice_set self.old number (option_map with_new_share (link_at self.old number)) }
    {
        if number < self.entries.len() {
            if is_cut(&self.entries[number]) {
                self.ready.include(number);
            }
            renew(&mut self.entries[number]);
        }
    }

    /// Gives each link a new share. One that was cut is ready for what it was cut from.
    pub fn renew_all(&mut self)
        ensures { self.new ≡ all_renewed self.old }
    {
        let end = self.end;
        for number in 0..end {
            self.renew(number);
        }
    }

    /// Gives what is ready first.
    pub fn take_ready(&mut self) -> Option<Wake>
        ensures count { length self.old ≡ most_links }
        ensures first { GivesFirst self.old result self.new }
        ensures fits { IfSome result (λ wake. LinkWakeFits self.old wake) }
        ensures opens { IfSome result (λ wake. Opens wake self.old self.new) }
    {
        match first_ready(&self.entries, self.ready.from, self.ready.below) {
            Some(number) => {
                self.ready.from = number;
                Some(take_first(&mut self.entries[number], number as u8))
            }
            None => {
                self.ready = NONE_READY;
                None
            }
        }
    }
}
