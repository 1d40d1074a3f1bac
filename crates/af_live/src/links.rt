// The calls of a world on its links.
ghost use Rattle.std.specs.Prelude.{◌≡◌, ◌≢◌, length, not, slice_set, is_some, true, false};
ghost use Rattle.std.specs.declared.option.Option.TheVariants.{Some};
ghost use Rattle.af_world.specs.World.{LinkGotFits, TookFits};
ghost use Rattle.af_live.specs.LinkTable.{is_drained, is_free, link_at, KeepsOpen, ClosesOne};
ghost use Rattle.af_live.specs.Shares.{after_interrupt, after_read, AfterRead, AfterWrite};
ghost use Rattle.af_live.specs.Polls.{latest_poll};
ghost use Rattle.af_live.specs.Streams.{KeepsStreams, LetsGo};

use crate::held_links::HeldLinks;
use crate::link_table::LinkEntry;
use crate::sockets::Sockets;
use af_world::{LinkGot, LinkTook};
use std::io::ErrorKind;

/// Reads what has come by a link, once between two polls: a further read gives nothing, and the link is ready after the next
/// poll. A read that gave less than there was room for gave all, unless it may hide more, and the system is not asked again
/// before it tells of more. A read that was interrupted gave nothing so far, and is to be made again: the link stays ready.
pub(crate) fn read_link(
    sockets: &mut Option<Sockets>,
    links: &mut HeldLinks,
    link: u8,
    into: &mut [u8],
) -> LinkGot
    ensures bound { LinkGotFits result (length into.new) }
    ensures open { KeepsOpen links.old links.new }
    ensures unheld { is_free (link_at links.old link) ≡ true → result ≡ LinkGot.Failed }
    ensures drained { is_some sockets.old ≡ true → is_drained (link_at links.old link) ≡ true → result ≡ LinkGot.NotYet }
    ensures after { AfterRead link (length into.new) result links.old links.new }
    ensures listens { is_some sockets.new ≡ is_some sockets.old }
    ensures poll { latest_poll sockets.new ≡ latest_poll sockets.old }
    ensures streams { KeepsStreams sockets.old sockets.new }
{
    let Some(sockets) = sockets else {
        return LinkGot::Failed;
    };
    let Some(held) = links.get(link) else {
        return LinkGot::Failed;
    };
    if held.drained {
        return LinkGot::NotYet;
    }
    if !held.share.may_read {
        links.put(link, held.after_read_cut());
        return LinkGot::NotYet;
    }
    match sockets.read(held.key, into) {
        Ok(0) => {
            links.put(link, held.after_read(false));
            LinkGot::Ended
        }
        Ok(count) => {
            links.put(link, held.after_read(count < into.len() && !held.hides));
            LinkGot::Bytes(count)
        }
        Err(e) => note_refused(e.kind(), held, links, link),
    }
}

/// What a read comes to that the system refused. Where it has nothing, it tells of what comes. After an interrupt the link stays
/// ready.
fn note_refused(kind: ErrorKind, held: LinkEntry, links: &mut HeldLinks, link: u8) -> LinkGot
    requires held { link_at links.old link ≡ Some held }
    ensures open { KeepsOpen links.old links.new }
    ensures blocked { kind ≡ ErrorKind.WouldBlock → (result ≡ LinkGot.NotYet)
        × (links.new ≡ slice_set links.old link (Some (after_read (not held.hides) held))) }
    ensures interrupted { kind ≡ ErrorKind.Interrupted → (result ≡ LinkGot.NotYet)
        × (links.new ≡ slice_set links.old link (Some (after_interrupt held))) }
    ensures refused { kind ≢ ErrorKind.WouldBlock → kind ≢ ErrorKind.Interrupted →
        (result ≡ LinkGot.Failed) × (links.new ≡ links.old) }
{
    match kind {
        ErrorKind::WouldBlock => {
            links.put(link, held.after_read(!held.hides));
            LinkGot::NotYet
        }
        ErrorKind::Interrupted => {
            links.put(link, held.after_interrupt());
            LinkGot::NotYet
        }
        _ => LinkGot::Failed,
    }
}

/// Offers a piece to a link, as much of it as its share has room for. Where that ends before the piece does, the link is ready
/// after the next poll. Where the system takes less, it tells when it takes more. A write that was interrupted took nothing, and
/// is to be made again: the link stays ready.
pub(crate) fn write_link(
    sockets: &mut Option<Sockets>,
    links: &mut HeldLinks,
    link: u8,
    piece: &[u8],
) -> LinkTook
    ensures bound { TookFits result (length piece.now) }
    ensures open { KeepsOpen links.old links.new }
    ensures unheld { is_free (link_at links.old link) ≡ true → result ≡ LinkTook.Failed }
    ensures after { AfterWrite link (length piece.now) result links.old links.new }
    ensures listens { is_some sockets.new ≡ is_some sockets.old }
    ensures poll { latest_poll sockets.new ≡ latest_poll sockets.old }
    ensures streams { KeepsStreams sockets.old sockets.new }
{
    let Some(sockets) = sockets else {
        return LinkTook::Failed;
    };
    let Some(held) = links.get(link) else {
        return LinkTook::Failed;
    };
    let offered = piece.len().min(held.share.room);
    if offered == 0 {
        links.put(link, held.after_write(0, piece.len()));
        return LinkTook::Took(0);
    }
    match sockets.write(held.key, link, &piece[..offered]) {
        Ok(0) => LinkTook::Failed,
        Ok(count) => {
            links.put(link, held.after_write(count, piece.len()));
            LinkTook::Took(count)
        }
        Err(e) => match e.kind() {
            ErrorKind::WouldBlock => LinkTook::Took(0),
            ErrorKind::Interrupted => {
                links.put(link, held.to_write());
                LinkTook::Took(0)
            }
            _ => LinkTook::Failed,
        },
    }
}

/// Closes a link, whose number is free then. One that is not held stays so.
pub(crate) fn close_link(sockets: &mut Option<Sockets>, links: &mut HeldLinks, link: u8)
    ensures closes { ClosesOne link links.old links.new }
    ensures listens { is_some sockets.new ≡ is_some sockets.old }
    ensures poll { latest_poll sockets.new ≡ latest_poll sockets.old }
    ensures streams { LetsGo (link_at links.old link) sockets.old sockets.new }
{
    if let (Some(sockets), Some(held)) = (sockets, links.get(link)) {
        sockets.close(held.key);
    }
    links.free(link);
}
