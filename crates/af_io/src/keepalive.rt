// How a link notices that its other side is gone without a close, as after a power failure.
use libc::net as c;
use std::os::fd::AsRawFd;

/// For how many seconds a link is silent before the other side is asked whether it is there.
const SILENT_SECONDS: i32 = 60;

/// How many seconds there are between two questions.
const SECONDS_BETWEEN: i32 = 15;

/// How many questions may stay without an answer.
const MOST_UNANSWERED: i32 = 3;

/// For how many milliseconds what was sent, or asked, may stay without an answer.
const UNANSWERED_MILLIS: i32 = 100_000;

/// Has the system end a connection whose other side has answered nothing for two minutes at most: its reads and writes fail then.
/// Where the system refuses an option, the connection goes on without it.
pub fn keep_alive<S: AsRawFd>(stream: &S) {
    let fd = stream.as_raw_fd();
    let tcp = c::IPPROTO_TCP;
    unsafe {
        c::setsockopt(fd, tcp, c::TCP_KEEPIDLE, &value_of(SILENT_SECONDS), 4);
        c::setsockopt(fd, tcp, c::TCP_KEEPINTVL, &value_of(SECONDS_BETWEEN), 4);
        c::setsockopt(fd, tcp, c::TCP_KEEPCNT, &value_of(MOST_UNANSWERED), 4);
        c::setsockopt(
            fd,
            tcp,
            c::TCP_USER_TIMEOUT,
            &value_of(UNANSWERED_MILLIS),
            4,
        );
        c::setsockopt(fd, c::SOL_SOCKET, c::SO_KEEPALIVE, &value_of(1), 4);
    }
}

/// The value of an option as the system takes it.
fn value_of(number: i32) -> [u8; 16] {
    let mut value = [0; 16];
    value[..4].copy_from_slice(&number.to_ne_bytes());
    value
}
