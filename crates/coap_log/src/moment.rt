//! The time of a line.

ghost use Rattle.std.specs.Prelude.{◌≡◌, ◌≤◌, ℕ, List, min, pos};
ghost use Rattle.std.specs.Duration.{as_nanos};
ghost use Rattle.jiff_core.specs.DateTime.{civil_nanos};
ghost use Rattle.coap_print.specs.Lines.{appended};
ghost use Rattle.coap_print.specs.declared.line.TheConstants.{LINE_LENGTH};
ghost use Rattle.coap_log.specs.Times.{IsTimeText, local_text, moment_text, last_time};

use arrayvec::ArrayString;
use coap_print::Line;
use jiff_core::civil::DateTime;
use jiff_fmt::temporal::DateTimePrinter;
use std::time::Duration;

/// Last nanosecond of the year 9999, after the start of 1970.
const LAST_TIME: u128 = 253_402_300_799_999_999_999;

/// Appends a time to a line, in UTC, as in `2026-11-27T05:18:31.042Z` (RFC 3339). The time counts from the start of
/// 1970. A time after the year 9999 is written as the last one of that year. The fraction of the second has this number
/// of digits, at most 9. With 0 it is left out.
pub fn append_time(line: &mut Line, time: Duration, digits: u8)
    ensures { (text : List ℕ) × IsTimeText digits (as_nanos time) text
        × (line.new ≡ appended LINE_LENGTH line.old text) }
{
    append_moment(line, moment_of(time), digits);
}

/// Returns the date and the time of day in UTC.
fn moment_of(time: Duration) -> DateTime
    ensures { civil_nanos result ≡ pos (min (as_nanos time) last_time) }
{
    DateTime::from_nanosecond_in_range(time.as_nanos().min(LAST_TIME) as i128)
}

/// Appends a date and a time of day in UTC.
fn append_moment(line: &mut Line, moment: DateTime, digits: u8)
    ensures { line.new ≡ appended LINE_LENGTH line.old (moment_text digits moment) }
{
    line.text(text_of(moment, digits).as_str());
    line.text("Z");
}

/// Returns a date and a time of day as text, without a time zone.
fn text_of(moment: DateTime, digits: u8) -> ArrayString<32>
    ensures { result.bytes ≡ local_text digits moment }
{
    DateTimePrinter::new()
        .precision(Some(digits))
        .datetime_text(moment)
}
