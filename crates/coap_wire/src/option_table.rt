//! The table of recognised options: for each number, the range of lengths and whether the option may repeat.
//!
//! To add a number:
//!
//! 1. **A critical option in this table no longer gets 4.02.** Server, application and client accept it, so each needs
//!    a check of its own, or ignores the option. No contract notices that.
//! 2. Add the number to `option_numbers.rt`, `kind`, `OptionNumbers.antt` and `option_kinds` (`Recognition.antt`).
//! 3. Check it in `coap_store`, as Proxy-Uri: `RequestOptions`, `ParsedRequest`, `Store::check`, with `options_after`
//!    and `answer_at`. `passes_checks` has the same for applications. These are `directory_core`, `gateway/mqtt` and
//!    the examples.
//! 4. A client reports `Rejected` only for unrecognised options (`response_event` of `coap_client_engine`).
//! 5. Add it to `OPTIONS` of `coap_print`, of `messages.py` and `message_syntax.py` (`tests/harness`), and of
//!    `tests/vectors/bytes.py`. Then add it to `include/dachreup.h`, or to `UNNAMED` of
//!    `tests/system/c_library/c_header.py`.
//! 6. Add rows to `kinds_of_options`, `lengths_of_options` (`wire`), `first_check_decides` (`store`) and `options`
//!    (`print`), and remove it from `options_that_nobody_knows` (`wire`). Then docs/MODEL.md and docs/conformance.tsv.

ghost use Rattle.std.specs.Prelude.{◌≡◌};
ghost use Rattle.coap_wire.specs.Prelude.{kind_of, once, repeated};

use crate::option_numbers;

/// Properties of the options with one number.
#[derive(Clone, Copy, PartialEq, Eq)]
pub struct OptionKind {
    /// Minimum length of the value in bytes (RFC 7252 section 5.4.3).
    pub min: u16,
    /// Maximum length of the value in bytes (RFC 7252 section 5.4.3).
    pub max: u16,
    /// `true` if a message may have several of them (RFC 7252 section 5.4.5).
    pub repeatable: bool,
}

/// Returns the entry of an option that does not repeat, with a value of `min` to `max` bytes.
fn single(min: u16, max: u16) -> Option<OptionKind>
    ensures { result ≡ Some (once min max) }
{
    Some(OptionKind {
        min,
        max,
        repeatable: false,
    })
}

/// Returns the entry of an option that may repeat, with a value of `min` to `max` bytes.
fn several(min: u16, max: u16) -> Option<OptionKind>
    ensures { result ≡ Some (repeated min max) }
{
    Some(OptionKind {
        min,
        max,
        repeatable: true,
    })
}

/// Returns the properties of the options with this number, or `None` if the table does not have the number. The table
/// is that of RFC 7252 section 5.10, with Observe (RFC 7641 section 2).
#[tactic(auto, unfolding(crate::specs::Recognition::kind_of))]
pub fn kind(number: u16) -> Option<OptionKind>
    ensures { result ≡ kind_of number }
{
    match number {
        option_numbers::IF_MATCH => several(0, 8),
        option_numbers::URI_HOST => single(1, 255),
        option_numbers::ETAG => several(1, 8),
        option_numbers::IF_NONE_MATCH => single(0, 0),
        option_numbers::OBSERVE => single(0, 3),
        option_numbers::URI_PORT => single(0, 2),
        option_numbers::LOCATION_PATH => several(0, 255),
        option_numbers::URI_PATH => several(0, 255),
        option_numbers::CONTENT_FORMAT => single(0, 2),
        option_numbers::MAX_AGE => single(0, 4),
        option_numbers::URI_QUERY => several(0, 255),
        option_numbers::ACCEPT => single(0, 2),
        option_numbers::LOCATION_QUERY => several(0, 255),
        option_numbers::PROXY_URI => single(1, 1034),
        option_numbers::PROXY_SCHEME => single(1, 255),
        option_numbers::SIZE1 => single(0, 4),
        _ => None,
    }
}
