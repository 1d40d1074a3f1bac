// A scripted link of a tape: what it has still to give, and what was stated of it.
// Layout: one vector of bytes, whose room is taken once. The first `given` of them were given.
ghost use Rattle.std.specs.Prelude.{◌≡◌, ◌≤◌, ◌+◌, length, is_some, option_map, IfOk};
ghost use Rattle.std.specs.declared.option.Option.TheVariants.{None, Some};
ghost use Rattle.af_limits.specs.Limits.{longest_read};
ghost use Rattle.af_world.specs.World.{got_of, took_of, LinkGotFits, TookFits};
ghost use Rattle.af_world.specs.Outside.{client_after_call, client_after_read, client_after_write, fresh_client, client_after_step};
ghost use Rattle.af_outside.specs.Tape.{sent_in};

use crate::{LinkGot, LinkTook, Step};
use af_io::copy_first;
use af_time::OutOfMemory;
use std::alloc::Global;
use std::marker::Model;

/// A scripted link, which may be open.
#[derive(Drop)]
pub(crate) struct ScriptedLink {
    is_open: bool,
    // all bytes since the link was opened
    bytes: Vec<u8>,
    given: usize,
    ends: bool,
    takes: Option<u32>,
    fails_read: bool,
    fails_write: bool,
}

impl Model for ScriptedLink {
    ghost use Rattle.std.specs.Prelude.{◌-◌, ◌≤◌, drop, vec_capacity, vec_len};
    ghost use Rattle.af_outside.specs.Tape.{KeptClient, client_where};

    ghost Value = { KeptClient };

    ghost view = { λ a. record {
      client = client_where a.is_open (record {
        gives = drop a.given a.bytes.items;
        ends = a.ends;
        takes = a.takes;
        fails_read = a.fails_read;
        fails_write = a.fails_write;
      });
      room = vec_capacity a.bytes - vec_len a.bytes;
    } };

    ghost invariant = { λ a. a.given ≤ vec_len a.bytes };
}

impl ScriptedLink {
    /// A link that is not open, with memory for n bytes.
    pub(crate) fn new(alloc: Global, room: usize) -> Result<ScriptedLink, OutOfMemory>
        ensures { IfOk result (λ scripted_link. scripted_link ≡ record { client = None; room = room }) }
    {
        let bytes = Vec::with_capacity(alloc, room)?;
        Ok(ScriptedLink {
            is_open: false,
            bytes,
            given: 0,
            ends: false,
            takes: None,
            fails_read: false,
            fails_write: false,
        })
    }

    pub(crate) fn is_open(&self) -> bool
        ensures { result ≡ is_some self.now.client }
    {
        self.is_open
    }

    /// The link is open, and nothing was stated of it.
    pub(crate) fn open(&mut self)
        ensures client { self.new.client ≡ Some fresh_client }
        ensures room { self.old.room ≤ self.new.room }
    {
        self.is_open = true;
        self.bytes.clear();
        self.given = 0;
        self.ends = false;
        self.takes = None;
        self.fails_read = false;
        self.fails_write = false;
    }

    /// The link is not open.
    pub(crate) fn close(&mut self)
        ensures client { self.new.client ≡ None }
        ensures room { self.old.room ≤ self.new.room }
    {
        self.is_open = false;
        self.bytes.clear();
        self.given = 0;
    }

    /// Does what a step states of the link. There is room for what it sends.
    pub(crate) fn adjust(&mut self, step: &Step)
        requires { length (sent_in step.now) ≤ self.old.room }
        ensures client { self.new.client ≡ option_map (client_after_step step.now) self.old.client }
        ensures room { self.old.room ≤ self.new.room + length (sent_in step.now) }
    {
        match step {
            Step::Send(_, bytes) => {
                // there is room
                let _ = self.bytes.extend_from_slice(bytes.as_slice());
            }
            Step::End(_) => self.ends = true,
            Step::Room(_, room) => self.takes = *room,
            Step::FailRead(_) => self.fails_read = true,
            Step::FailWrite(_) => self.fails_write = true,
            _ => {}
        }
    }

    /// Answers a read: with the first bytes that are left, as many as fit, if it is not to fail.
    pub(crate) fn read(&mut self, into: &mut [u8]) -> LinkGot
        requires { length into.old ≡ longest_read }
        ensures answered { client_after_call (client_after_read (got_of result into.new)) self.old.client ≡ Some self.new.client }
        ensures bound { LinkGotFits result (length into.new) }
        ensures room { self.new.room ≡ self.old.room }
    {
        if !self.is_open {
            return LinkGot::NotYet;
        }
        if self.fails_read {
            self.fails_read = false;
            return LinkGot::Failed;
        }
        let count = copy_first(&self.bytes[self.given..], into);
        self.given += count;
        if count > 0 {
            return LinkGot::Bytes(count);
        }
        if self.ends {
            return LinkGot::Ended;
        }
        LinkGot::NotYet
    }

    /// Answers a write of a piece: as many bytes are taken as there is room for, if it is not to fail.
    pub(crate) fn write(&mut self, piece: &[u8]) -> LinkTook
        ensures answered { client_after_call (client_after_write (length piece.now) (took_of result piece.now)) self.old.client
            ≡ Some self.new.client }
        ensures bound { TookFits result (length piece.now) }
        ensures room { self.new.room ≡ self.old.room }
    {
        if !self.is_open {
            return LinkTook::Took(piece.len());
        }
        if self.fails_write {
            self.fails_write = false;
            return LinkTook::Failed;
        }
        let Some(room) = self.takes else {
            return LinkTook::Took(piece.len());
        };
        let count = piece.len().min(room as usize);
        self.takes = Some(room - count as u32);
        LinkTook::Took(count)
    }
}
