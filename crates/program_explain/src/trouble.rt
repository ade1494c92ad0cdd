//! `Trouble`, the error that ends an explanation.

use coap_io::WriteFailed;
use std::alloc::AllocError;

/// Maximum number of bytes of a line, without its newline: 2 MiB and 4 KiB. The longest line that a recorder writes is
/// an `in` with a message of 1,048,576 bytes and at most 12 bytes of its header. It has less than 2,097,300 bytes.
pub(crate) const LONGEST_LINE: usize = 2_101_248;

/// Error that ends an explanation. The number of a line counts from 1.
#[derive(Clone, Copy, PartialEq, Eq)]
pub(crate) enum Trouble {
    /// Failed read of the record.
    Read,
    /// Failed write of a line.
    Write,
    /// Failed allocation.
    Memory,
    /// Line that is no event.
    NoEvent(u64),
    /// Line of more than `LONGEST_LINE` bytes.
    TooLong(u64),
    /// Last line, which has no newline.
    Torn(u64),
    /// Line with options that the server does not have.
    Options(u64),
}

impl From<WriteFailed> for Trouble {
    ghost use Rattle.std.specs.Prelude.{◌≡◌};
    ghost use Rattle.program_explain.specs.declared.trouble.Trouble.TheVariants.{Write};

    ghost from_gives = { λ _ trouble. trouble ≡ Write };

    fn from(_fault: WriteFailed) -> Trouble {
        Trouble::Write
    }
}

impl From<AllocError> for Trouble {
    ghost use Rattle.std.specs.Prelude.{◌≡◌};
    ghost use Rattle.program_explain.specs.declared.trouble.Trouble.TheVariants.{Memory};

    ghost from_gives = { λ _ trouble. trouble ≡ Memory };

    fn from(_fault: AllocError) -> Trouble {
        Trouble::Memory
    }
}
