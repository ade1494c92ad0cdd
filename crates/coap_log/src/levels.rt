//! `MessageLevels`, which decides the level of each message in a log.

ghost use Rattle.std.specs.Prelude.{◌≡◌, ℕ, List};
ghost use Rattle.coap_print.specs.declared.level.LogLevel.{LogLevel as Level};

use coap_print::LogLevel;

/// Levels of messages in a log. A `LogLevel` is the level of each message.
pub trait MessageLevels {
    /// Level of the message with these first bytes.
    ghost level: { Self → List ℕ → Level };

    /// Returns the level of the message with these first bytes, 16 or more unless the message is shorter.
    fn level_of(&self, head: &[u8]) -> LogLevel
        ensures { result ≡ level self.now head.now };
}

impl MessageLevels for LogLevel {
    ghost level = { λ level head. level };

    fn level_of(&self, _head: &[u8]) -> LogLevel {
        *self
    }
}
