//! How a client is written: it plays and records over a server in memory, and says what it was told.
#![tactic(auto)]

use af_io::MemLink;
use af_lib::{Conn, ConnFault};
use af_sample::{Gain, SampleType};
use af_time::DevTime;
use af_wire::Order;
use std::io;
use std::process::ExitCode;

// The server's replies to the setup, CreateAC, GetTime, Play, Record and FreeAC.
const REPLIES: [u8; 88] = [
    1, 0, 0, 0, 0, 0, 0, 5, 0, 1, 0, 0, 0, 0, 0, 1, 2, 1, 0, 0, 0, 0, 0x1F, 0x40, 0, 0, 0x7D, 0, // setup
    1, 3, 0, 1, 0, 0, 0, 0, // CreateAC
    1, 2, 0, 2, 0, 0, 0, 1, 0, 0, 0, 50, // GetTime
    1, 6, 0, 3, 0, 0, 0, 1, 0, 0, 0, 51, // Play
    1, 7, 0, 4, 0, 0, 0, 3, 0, 0, 0, 52, 0, 0, 0, 4, 0, 10, 0, 11, // Record
    1, 5, 0, 5, 0, 0, 0, 0, // FreeAC
];

// Plays two samples 100 ms ahead, and records the two of now. It says when that was, and how many bytes came.
fn converse(
    conn: &mut Conn<MemLink>,
    recorded: &mut [u8; 4],
) -> Result<(DevTime, usize), ConnFault> {
    conn.create_ac(
        1,
        0,
        SampleType::Lin16,
        Gain::default(),
        Gain::default(),
        false,
    )?;
    let now = conn.get_time(0)?;
    conn.play_run(1, now.after(800), &[0, 1, 0, 2])?;
    let (_, count) = conn.record_run(1, now, true, recorded)?;
    conn.free_ac(1)?;
    Ok((now, count))
}

// Says what a conversation came to. The status is 0 only if all of it succeeded.
fn report(
    rt: &impl Print,
    told: Result<(DevTime, usize), ConnFault>,
    recorded: [u8; 4],
    sent: usize,
) -> io::Result<ExitCode> {
    match told {
        Ok((now, 4)) => {
            println!(rt; "time {}", now.0)?;
            println!(rt; "recorded {recorded:?}")?;
            println!(rt; "sent {sent} bytes")?;
            Ok(ExitCode::from(0u8))
        }
        Ok((_, count)) => {
            println!(rt; "recorded {count} bytes, and not 4")?;
            Ok(ExitCode::from(1u8))
        }
        Err(fault) => {
            println!(rt; "{fault}")?;
            Ok(ExitCode::from(1u8))
        }
    }
}

fn main(rt: HostRuntime) -> io::Result<ExitCode> {
    let Ok(link) = MemLink::new(rt.alloc(), &REPLIES, 16, 1000, &[]) else {
        return Ok(ExitCode::from(7u8));
    };
    match Conn::connect(rt.alloc(), link, Order::Big) {
        Ok(mut conn) => {
            let mut recorded = [0; 4];
            let told = converse(&mut conn, &mut recorded);
            let link = conn.into_link();
            report(&rt, told, recorded, link.sent().len())
        }
        Err((fault, _)) => {
            println!(rt; "{fault}")?;
            Ok(ExitCode::from(1u8))
        }
    }
}
