//! Counts of the system calls of a listener that failed.

ghost use Rattle.std.specs.Prelude.{◌≡◌};
ghost use Rattle.std.specs.IoError.{error_kind, raw_os_error};
ghost use Rattle.coap_sockets.specs.Troubles as spec;

use crate::io_results::number_of;
use std::io;
use std::io::ErrorKind;

/// Number of the error for a lack of descriptors in the whole system. `libc` does not name it.
const ENFILE: i32 = 23;

/// Number of the error for a lack of memory for sockets. `libc` does not name it.
const ENOBUFS: i32 = 105;

/// Numbers of system calls of a listener that failed, for a log. Each number stays at its maximum once it is reached.
#[derive(Clone, Copy, Debug, PartialEq, Eq)]
pub struct DoorTroubles {
    /// Accepts that failed for lack of descriptors or memory.
    pub full: u64,
    /// Accepts that failed for another reason, and accepted sockets that could not be set up.
    pub other: u64,
    /// Waits that failed.
    pub waits: u64,
}

/// Returns `true` if an error has this number for lack of descriptors or memory.
fn lacks_resources(number: i32) -> bool
    ensures { result ≡ spec.lacks_resources number }
{
    number == libc::ENOMEM || number == ENFILE || number == libc::EMFILE || number == ENOBUFS
}

impl DoorTroubles {
    /// Returns the numbers of a new listener.
    pub(crate) fn none() -> DoorTroubles
        ensures { result ≡ spec.none }
    {
        DoorTroubles {
            full: 0,
            other: 0,
            waits: 0,
        }
    }

    /// Returns the numbers after an accept with this error. An accept that found no client, or that a signal
    /// interrupted, has not failed.
    pub(crate) fn after_accept(self, error: io::Error) -> DoorTroubles
        ensures { result ≡ spec.after_accept self (error_kind error) (raw_os_error error) }
    {
        match error.kind() {
            ErrorKind::WouldBlock => self,
            ErrorKind::Interrupted => self,
            _ => self.after_failure(number_of(error)),
        }
    }

    /// Returns the numbers after an accept that failed with an error of this number.
    fn after_failure(self, number: i32) -> DoorTroubles
        ensures { result ≡ spec.after_failure self number }
    {
        if lacks_resources(number) {
            DoorTroubles {
                full: self.full.saturating_add(1),
                ..self
            }
        } else {
            self.after_other()
        }
    }

    /// Returns the numbers after an accept that failed for another reason, or after an accepted socket that could
    /// not be set up.
    pub(crate) fn after_other(self) -> DoorTroubles
        ensures { result ≡ spec.after_other self }
    {
        DoorTroubles {
            other: self.other.saturating_add(1),
            ..self
        }
    }

    /// Returns the numbers after a wait that failed.
    pub(crate) fn after_wait(self) -> DoorTroubles
        ensures { result ≡ spec.after_wait self }
    {
        DoorTroubles {
            waits: self.waits.saturating_add(1),
            ..self
        }
    }
}
