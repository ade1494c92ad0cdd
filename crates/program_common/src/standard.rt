//! Keeps the numbers of closed standard descriptors from being used for sockets.

use std::fs::OpenOptions;
use std::os::fd::AsRawFd;
use std::rt::Files;

/// Number of standard error, the last standard descriptor.
const LAST: i32 = 2;

/// Opens `/dev/null` in place of the first standard descriptor that is closed, if there is one, and returns the file.
///
/// The system gives each opened file the lowest free number. The result is `None` if all three descriptors are open or
/// if `/dev/null` cannot be opened.
fn occupy_first<R: Files>(rt: &R) -> Option<R::File>
where
    R::File: AsRawFd,
{
    let null = OpenOptions::new()
        .read(true)
        .write(true)
        .open(rt, "/dev/null")
        .ok()?;
    if null.as_raw_fd() > LAST {
        return None;
    }
    Some(null)
}

/// Opens `/dev/null` in place of each standard descriptor that is closed, and returns the files. While they exist, no
/// socket gets these numbers, so no byte written to such a descriptor goes to a peer. A file is `None` if it is not
/// needed or cannot be opened.
pub fn occupy_standard_descriptors<R: Files>(
    rt: &R,
) -> (Option<R::File>, Option<R::File>, Option<R::File>)
where
    R::File: AsRawFd,
{
    (occupy_first(rt), occupy_first(rt), occupy_first(rt))
}
