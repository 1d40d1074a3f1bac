// Connections that came while every number had a link. Each gets its end of stream at once, and stays open for a while: if it
// were closed with bytes unread or on their way, it would be reset, and a reset may overtake the end.
use mio::net::TcpStream;
use std::array;
use std::net::Shutdown;

/// How many are kept open. A further one takes the place of the oldest, which is closed.
const MOST_KEPT: usize = 32;

/// For how many nanoseconds they are kept after the last one came.
const LONGEST_KEPT_NANOS: u64 = 2_000_000_000;

/// Connections that were turned away, and the reading of the clock as the last one came, if any is kept.
#[derive(Drop)]
pub(crate) struct TurnedAway {
    streams: [Option<TcpStream>; MOST_KEPT],
    next: usize,
    last: Option<u64>,
}

impl TurnedAway {
    /// None was turned away.
    pub fn new() -> TurnedAway {
        TurnedAway {
            streams: array::from_fn(|_| None),
            next: 0,
            last: None,
        }
    }

    /// Ends a connection at this reading of the clock, and keeps it open.
    pub fn turn_away(&mut self, stream: TcpStream, now: u64) {
        // if the system refuses that, its close ends it
        let _ = stream.shutdown(Shutdown::Write);
        let place = self.next % MOST_KEPT;
        self.streams[place] = Some(stream);
        self.next = place + 1;
        self.last = Some(now);
    }

    /// Closes those that are kept, if the last one came long enough before this reading of the clock.
    pub fn close_old(&mut self, now: u64) {
        let Some(last) = self.last else {
            return;
        };
        if now.saturating_sub(last) >= LONGEST_KEPT_NANOS {
            for stream in &mut self.streams {
                *stream = None;
            }
            self.last = None;
        }
    }
}
