// The links that a world holds, by number, and what is ready of each and was not given yet.
ghost use Rattle.std.specs.Prelude.{◌≡◌, ◌≤◌, length, option_map, slice_set, slice_index_or, true, false};
ghost use Rattle.af_live.specs.LinkTable.{free_entry, new_link, with_readiness, nothing_unread, something_ready, wake_at, without_first_ready, IsLeastFree, IsFirstReady, NothingReadyBelow, NothingReadyFrom};
ghost use Rattle.af_live.specs.Shares.{after_interrupt, after_read, after_read_cut, after_write, is_cut, to_write, with_new_share};

use crate::share::Share;
use af_world::Wake;

/// A link that is held: the key of its stream; what was not given yet: that it is new, that it may have something to read, and
/// that it may take something; whether all that had come was read, so that an event tells when there is more; whether a read that
/// gives little may hide more, as the end, which no event tells again; and what it may be given until the next poll.
#[derive(Clone, Copy)]
pub(crate) struct LinkEntry {
    pub key: usize,
    pub opened: bool,
    pub readable: bool,
    pub writable: bool,
    pub drained: bool,
    pub hides: bool,
    pub share: Share,
}

impl LinkEntry {
    /// A link that is new.
    pub fn new(key: usize) -> LinkEntry
        ensures { result ≡ new_link key }
    {
        LinkEntry {
            key,
            opened: true,
            readable: false,
            writable: false,
            drained: false,
            hides: false,
            share: Share::whole(),
        }
    }

    /// The link after a read that drained it, or that left unknown whether more has come.
    pub fn after_read(mut self, drains: bool) -> LinkEntry
        ensures { result ≡ after_read drains self }
    {
        self.drained |= drains;
        self.share.may_read = false;
        self
    }

    /// The link after a read that was interrupted: it stays ready.
    pub fn after_interrupt(mut self) -> LinkEntry
        ensures { result ≡ after_interrupt self }
    {
        self.readable = true;
        self
    }

    /// The link after a read that was refused, since one was made since the last poll.
    pub fn after_read_cut(mut self) -> LinkEntry
        ensures { result ≡ after_read_cut self }
    {
        self.share.read_cut = true;
        self
    }

    /// The link after a write that took so many bytes of a piece, at most as many as its share had room for.
    pub fn after_write(mut self, count: usize, piece: usize) -> LinkEntry
        requires { count ≤ self.share.room }
        ensures { result ≡ after_write count piece self }
    {
        let share = &mut self.share;
        share.write_cut |= count == share.room && count < piece;
        share.room -= count;
        self
    }

    /// The link after a write that was interrupted: it stays ready.
    pub fn to_write(mut self) -> LinkEntry
        ensures { result ≡ to_write self }
    {
        self.writable = true;
        self
    }
}

/// The link with a number, if it is held.
pub(crate) fn held_at(links: &[Option<LinkEntry>], number: u8) -> Option<LinkEntry>
    ensures { result ≡ slice_index_or links.now number free_entry }
{
    match links.get(number as usize) {
        Some(link) => *link,
        None => None,
    }
}

/// A link is no longer held.
pub(crate) fn free_number(links: &mut [Option<LinkEntry>], number: u8)
    ensures { links.new ≡ slice_set links.old number free_entry }
{
    let place = number as usize;
    if place < links.len() {
        links[place] = None;
    }
}

/// The least number that no link has.
pub(crate) fn least_free(links: &[Option<LinkEntry>]) -> Option<usize>
    ensures { IsLeastFree links.now result }
{
    for (number, link) in links.iter().enumerate() {
        if link.is_none() {
            return Some(number);
        }
    }
    None
}

/// Whether something of a link is ready.
fn is_ready(link: &Option<LinkEntry>) -> bool
    ensures { result ≡ something_ready link.now }
{
    match link {
        Some(held) => held.opened || held.readable || held.writable,
        None => false,
    }
}

/// Whether all that had come by a link was read, if it is held.
pub(crate) fn is_drained(link: &Option<LinkEntry>) -> bool
    ensures { result ≡ nothing_unread link.now }
{
    match link {
        Some(held) => held.drained,
        None => true,
    }
}

/// Whether something was refused to a link since its share was used up.
pub(crate) fn is_cut(link: &Option<LinkEntry>) -> bool
    ensures { result ≡ is_cut link.now }
{
    match link {
        Some(held) => held.share.read_cut || held.share.write_cut,
        None => false,
    }
}

/// Gives a link that is held a new share. Where it was cut, it is ready for what it was cut from.
pub(crate) fn renew(link: &mut Option<LinkEntry>)
    ensures { link.new ≡ option_map with_new_share link.old }
{
    if let Some(held) = link {
        held.readable |= held.share.read_cut;
        held.writable |= held.share.write_cut;
        held.share = Share::whole();
    }
}

/// The number of the first link with something ready, if it lies between two numbers.
pub(crate) fn first_ready(links: &[Option<LinkEntry>], from: usize, below: usize) -> Option<usize>
    requires bound { below ≤ length links.now }
    requires nothing_below { NothingReadyBelow from links.now }
    requires nothing_from { NothingReadyFrom below links.now }
    ensures { IsFirstReady links.now result }
{
    for number in from..below {
        if is_ready(&links[number]) {
            return Some(number);
        }
    }
    None
}

/// What is given first of a link, which is then given.
pub(crate) fn take_first(link: &mut Option<LinkEntry>, number: u8) -> Wake
    ensures wake { result ≡ wake_at link.old number }
    ensures rest { link.new ≡ without_first_ready link.old }
{
    match link {
        Some(held) if held.opened => {
            held.opened = false;
            Wake::Opened(number)
        }
        Some(held) if held.readable => {
            held.readable = false;
            Wake::Readable(number)
        }
        Some(held) if held.writable => {
            held.writable = false;
            Wake::Writable(number)
        }
        _ => Wake::Idle,
    }
}

/// What an event tells of a link: that it may have something to read, that it may take something, and that a read that gives
/// little may hide more from now on.
#[derive(Clone, Copy)]
pub(crate) struct Readiness {
    pub may_read: bool,
    pub may_write: bool,
    pub hides: bool,
}

/// Notes what an event tells of a link that is held.
pub(crate) fn note_told(link: &mut Option<LinkEntry>, told: Readiness)
    ensures { link.new ≡ with_readiness told link.old }
{
    if let Some(held) = link {
        held.readable |= told.may_read;
        held.writable |= told.may_write;
        held.drained &= !told.may_read;
        held.hides |= told.hides;
    }
}
