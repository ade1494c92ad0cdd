//! `LogLevel`, the level of a log.

ghost use Rattle.std.specs.Prelude.{◌≡◌, ◌≤◌, nat_le};
ghost use Rattle.coap_print.specs.Levels as spec;

/// Level of a log, which says what is written. Each level includes the lower ones, and the order of levels is that of
/// their numbers.
#[derive(Clone, Copy, Debug, PartialEq, Eq, PartialOrd, Ord)]
pub enum LogLevel {
    /// No line.
    Nothing = 0,
    /// Limits that refused something, and failed system calls.
    Warnings = 1,
    /// Also one line for each connection opened and ended.
    Connections = 2,
    /// Also each message in and out.
    Messages = 3,
}

impl LogLevel {
    /// Returns the level with this number, or `None` if the number is above 3.
    #[tactic(auto, unfolding(crate::specs::Levels::level_of))]
    pub const fn of_number(number: u64) -> Option<LogLevel>
        ensures { result ≡ spec.level_of number }
    {
        match number {
            0 => Some(LogLevel::Nothing),
            1 => Some(LogLevel::Warnings),
            2 => Some(LogLevel::Connections),
            3 => Some(LogLevel::Messages),
            _ => None,
        }
    }

    /// Returns the number of the level, 0 to 3.
    pub const fn number(self) -> u8
        ensures value { result ≡ spec.level_number self }
        ensures bound { result ≤ 3 }
    {
        match self {
            LogLevel::Nothing => 0,
            LogLevel::Warnings => 1,
            LogLevel::Connections => 2,
            LogLevel::Messages => 3,
        }
    }

    /// Returns `true` if a log of this level has the lines of the level `other`: each level includes itself and the
    /// lower ones.
    pub const fn includes(self, other: LogLevel) -> bool
        ensures { result ≡ nat_le (spec.level_number other) (spec.level_number self) }
    {
        other.number() <= self.number()
    }
}

const _: () = prove!(LogLevel::Nothing as u8 == 0);

const _: () = prove!(LogLevel::Warnings as u8 == 1);

const _: () = prove!(LogLevel::Connections as u8 == 2);

const _: () = prove!(LogLevel::Messages as u8 == 3);
