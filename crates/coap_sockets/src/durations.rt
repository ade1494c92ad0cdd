//! Durations of waits and of attempts to connect, and the time of a clock that never goes back.

ghost use Rattle.std.specs.Prelude.{◌≡◌, ◌≤◌, ◌+◌, ◌-◌, max, option_map, IfSome};
ghost use Rattle.std.specs.Duration.{as_nanos};
ghost use Rattle.coap_sockets.specs.Durations as spec;

use std::time::Duration;

/// Returns one second.
pub(crate) fn second() -> Duration
    ensures { as_nanos result ≡ spec.second }
{
    Duration::from_secs(1)
}

/// Returns the time until `moment`, in seconds, begins. If it has begun, the result is zero.
pub(crate) fn left_until(moment: u64, now: Duration) -> Duration
    ensures { as_nanos result ≡ spec.left_until moment (as_nanos now) }
{
    Duration::from_secs(moment).saturating_sub(now)
}

/// Returns the part of a duration that is left at `now`, if it started at `began`.
pub(crate) fn left_of(time: Duration, began: Duration, now: Duration) -> Duration
    ensures { as_nanos result ≡ spec.left_of (as_nanos time) (as_nanos began) (as_nanos now) }
{
    time.saturating_sub(now.saturating_sub(began))
}

/// Returns the time until the next second begins: more than zero, and at most one second.
pub(crate) fn to_next_second(now: Duration) -> Duration
    ensures { as_nanos result ≡ spec.to_next_second (as_nanos now) }
{
    second().saturating_sub(Duration::from_nanos(u64::from(now.subsec_nanos())))
}

/// Returns the time for one attempt to connect, with `others` addresses after this one. It is the remaining time
/// divided by the number of remaining addresses, and at least one second if that much remains.
pub(crate) fn share_of(left: Duration, others: u16) -> Duration
    ensures { as_nanos result ≡ spec.share_of (as_nanos left) others }
{
    let share = left / (u32::from(others) + 1);
    share.max(second()).min(left)
}

/// Returns the time at which the attempt to connect to an address ends, or `None` if no time is left. Times count from
/// the start of the first attempt: `passed` is the present time, and all attempts end at `limit`. The address is that
/// with this index among `count` addresses.
pub(crate) fn end_of_attempt(
    passed: Duration,
    limit: Duration,
    index: u16,
    count: u16,
) -> Option<Duration>
    ensures end { option_map as_nanos result
        ≡ spec.end_of_attempt (as_nanos passed) (as_nanos limit) index count }
{
    let left = limit.saturating_sub(passed);
    if left.is_zero() {
        return None;
    }
    let others = count.saturating_sub(index).saturating_sub(1);
    Some(passed.saturating_add(share_of(left, others)))
}

/// Returns the shorter of two durations, where `None` is one without end.
pub(crate) fn at_most(limit: Duration, time: Option<Duration>) -> Duration
    ensures { as_nanos result ≡ spec.at_most (as_nanos limit) (option_map as_nanos time) }
{
    match time {
        Some(time) => time.min(limit),
        None => limit,
    }
}

/// Reading of a clock: its time, and that of the monotonic clock, which was read with it.
#[derive(Clone, Copy)]
pub(crate) struct Reading {
    /// Time since 1970.
    pub time: Duration,
    /// Time of the monotonic clock.
    pub monotonic: Duration,
}

/// Returns `true` if the system's clock can be read (`Some`) and is in the second of `last`.
pub(crate) fn is_in_second_of(last: Duration, wall: Option<Duration>) -> bool
    ensures { result ≡ spec.is_in_second_of (as_nanos last) (option_map as_nanos wall) }
{
    match wall {
        Some(wall) => wall.as_secs() == last.as_secs(),
        None => false,
    }
}

/// Returns the reading after `last`, for the times of the system's clock and of the monotonic clock. If the system's
/// clock was set back, or cannot be read (`None`), the time continues by the monotonic clock.
pub(crate) fn continued(last: Reading, wall: Option<Duration>, monotonic: Duration) -> Reading
    ensures time { as_nanos result.time ≡ spec.continued (as_nanos last.time)
        (as_nanos monotonic - as_nanos last.monotonic) (option_map as_nanos wall) }
    ensures monotonic { as_nanos result.monotonic ≡ max (as_nanos last.monotonic) (as_nanos monotonic) }
    // The time never goes back.
    ensures forward { as_nanos last.time ≤ as_nanos result.time }
    // The time is that of the system's clock, if this was not set back.
    ensures wall { IfSome wall (λ wall.
        as_nanos last.time + (as_nanos monotonic - as_nanos last.monotonic) ≤ as_nanos wall →
        as_nanos result.time ≡ as_nanos wall) }
{
    let passed = monotonic.saturating_sub(last.monotonic);
    let time = last.time.saturating_add(passed);
    Reading {
        time: match wall {
            Some(wall) => wall.max(time),
            None => time,
        },
        monotonic: monotonic.max(last.monotonic),
    }
}
