// The links of a tape: what steps do to them, and what they answer.
ghost use Rattle.std.specs.Prelude.{◌≡◌, ◌∷◌, [], List, length, replicate, sum_by, is_some, IfOk};
ghost use Rattle.std.specs.declared.option.Option.TheVariants.{None, Some};
ghost use Rattle.af_limits.specs.Limits.{most_links, longest_read};
ghost use Rattle.af_world.specs.declared.happening.Happening.TheVariants.{Read, Wrote, Closed};
ghost use Rattle.af_world.specs.declared.script.Step.{Step};
ghost use Rattle.af_world.specs.World.{got_of, took_of, LinkGotFits, TookFits};
ghost use Rattle.af_world.specs.Outside.{with_changed_client, outside_after_happening, client_at, client_after_step, outside_after_step, wake_of, wake_where_open, ScriptedDevice};
ghost use Rattle.af_outside.specs.Tape.{HasRoomForSteps, clients_of, outside_of, bytes_sent_by, sent_in};

use crate::scripted_link::ScriptedLink;
use crate::{LinkGot, LinkTook, Step, Wake, Why};
use af_limits::MOST_LINKS;
use af_time::OutOfMemory;
use std::alloc::Global;

// How many bytes a step sends on a link.
fn bytes_sent(step: &Step, link: u8) -> usize
    ensures { result ≡ bytes_sent_by link step.now }
{
    match step {
        Step::Send(to, bytes) if *to == link => bytes.as_slice().len(),
        _ => 0,
    }
}

// How many bytes the steps send on a link, if memory may hold so many.
fn all_bytes_sent(steps: &[Step], link: u8) -> Result<usize, OutOfMemory>
    ensures { IfOk result (λ count. count ≡ sum_by (bytes_sent_by link) steps.now) }
{
    let mut count = 0usize;
    for step in steps {
        count = count
            .checked_add(bytes_sent(step, link))
            .ok_or(OutOfMemory)?;
    }
    Ok(count)
}

/// Links that are not open, as many as there may be, with memory for all that the steps send.
pub(crate) fn closed_links(alloc: Global, steps: &[Step]) -> Result<Vec<ScriptedLink>, OutOfMemory>
    ensures clients { IfOk result (λ links. clients_of links.items ≡ replicate most_links None) }
    ensures room { IfOk result (λ links. HasRoomForSteps links.items steps.now) }
{
    let mut links = Vec::with_capacity(alloc, MOST_LINKS)?;
    for link in 0..MOST_LINKS as u8 {
        let room = all_bytes_sent(steps, link)?;
        links.push(ScriptedLink::new(alloc, room)?)?;
    }
    Ok(links)
}

/// Opens a link, if it is not open yet.
pub(crate) fn open(links: &mut [ScriptedLink], link: u8) -> Wake
    ensures wake { result ≡ wake_of (outside_of links.old []) (Step.Open link) }
    ensures outside { (devices : List ScriptedDevice)
        → outside_of links.new devices ≡ outside_after_step (outside_of links.old devices) (Step.Open link) }
    ensures room { (steps : List Step) → HasRoomForSteps links.old (Step.Open link ∷ steps) → HasRoomForSteps links.new steps }
{
    let place = link as usize;
    if place < links.len() {
        if links[place].is_open() {
            return Wake::Idle;
        }
        links[place].open();
    }
    Wake::Opened(link)
}

fn is_open(links: &[ScriptedLink], link: u8) -> bool
    ensures { result ≡ is_some (client_at (outside_of links.now []) link) }
{
    match links.get(link as usize) {
        Some(scripted_link) => scripted_link.is_open(),
        None => false,
    }
}

// The wake of a step on a link, if the link is open.
fn wake_where_open(links: &[ScriptedLink], link: u8, wake: Wake) -> Wake
    ensures { result ≡ wake_where_open (outside_of links.now []) link wake }
{
    if is_open(links, link) {
        wake
    } else {
        Wake::Idle
    }
}

/// Does what a step states of its link, and gives this wake where the link is open.
pub(crate) fn adjust(links: &mut [ScriptedLink], link: u8, step: &Step, wake: Wake) -> Wake
    requires link { bytes_sent_by link step.now ≡ length (sent_in step.now) }
    requires room { HasRoomForSteps links.old (step.now ∷ []) }
    ensures wake { result ≡ wake_where_open (outside_of links.old []) link wake }
    ensures outside { (devices : List ScriptedDevice)
        → outside_of links.new devices ≡ with_changed_client (outside_of links.old devices) link (client_after_step step.now) }
    ensures room { (steps : List Step) → HasRoomForSteps links.old (step.now ∷ steps) → HasRoomForSteps links.new steps }
{
    let wake = wake_where_open(links, link, wake);
    let place = link as usize;
    if place < links.len() {
        links[place].adjust(step);
    }
    wake
}

/// Answers a read of a link; of one that is not open there is nothing to read yet.
pub(crate) fn read(links: &mut [ScriptedLink], link: u8, into: &mut [u8]) -> LinkGot
    requires { length into.old ≡ longest_read }
    ensures answered { (devices : List ScriptedDevice)
        → outside_after_happening (outside_of links.old devices) (Read link (got_of result into.new))
        ≡ Some (outside_of links.new devices) }
    ensures bound { LinkGotFits result (length into.new) }
    ensures room { (steps : List Step) → HasRoomForSteps links.old steps → HasRoomForSteps links.new steps }
{
    let place = link as usize;
    if place >= links.len() {
        return LinkGot::NotYet;
    }
    links[place].read(into)
}

/// Answers a write to a link; one that is not open takes all.
pub(crate) fn write(links: &mut [ScriptedLink], link: u8, piece: &[u8]) -> LinkTook
    ensures answered { (devices : List ScriptedDevice)
        → outside_after_happening (outside_of links.old devices) (Wrote link (length piece.now) (took_of result piece.now))
        ≡ Some (outside_of links.new devices) }
    ensures bound { TookFits result (length piece.now) }
    ensures room { (steps : List Step) → HasRoomForSteps links.old steps → HasRoomForSteps links.new steps }
{
    let place = link as usize;
    if place >= links.len() {
        return LinkTook::Took(piece.len());
    }
    links[place].write(piece)
}

/// The link is not open from now on.
pub(crate) fn close(links: &mut [ScriptedLink], link: u8, why: Why)
    ensures answered { (devices : List ScriptedDevice)
        → outside_after_happening (outside_of links.old devices) (Closed link why) ≡ Some (outside_of links.new devices) }
    ensures room { (steps : List Step) → HasRoomForSteps links.old steps → HasRoomForSteps links.new steps }
{
    let place = link as usize;
    if place < links.len() {
        links[place].close();
    }
}
