//! The clocks of both programs.

ghost use Rattle.std.specs.Prelude.{◌≡◌, ◌≤◌, ◌/◌, ◌∷◌, ℕ, [], None};
ghost use Rattle.std.specs.Duration.{as_nanos};
ghost use Rattle.coap_io.specs.streams.DeviceTraces.{AddsCalls};
ghost use Rattle.coap_sockets.specs.Durations.{second};

use crate::durations::{Reading, continued, is_in_second_of, to_next_second};
use coap_io::Clock;
use std::time;
use std::time::Duration;

/// Clock that returns the seconds since 1970, and never goes back.
///
/// If the system's clock is set back, or cannot be read, this clock continues from its last time by the monotonic
/// clock. It is then ahead of the system's clock, until that is set forward.
#[derive(Drop)]
pub struct SystemClock<'a, R> {
    rt: &'a R,
    last: Reading,
}

impl<'a, R: time::Clock> SystemClock<'a, R> {
    /// Returns the clock over the system's clock, which is read for the first time.
    pub fn new(rt: &'a R) -> SystemClock<'a, R> {
        SystemClock {
            rt,
            last: Reading {
                time: rt.since_1970().unwrap_or(Duration::ZERO),
                monotonic: monotonic(rt),
            },
        }
    }
}

impl<'a, R: time::Clock> Clock for SystemClock<'a, R> {
    // The monotonic clock is read once in each second, which keeps most calls short. It is read last, so that a pause
    // between the two calls affects one reading only.
    fn now(&mut self) -> u64
        ensures reported { AddsCalls {A = ℕ} None None (result ∷ []) }
        ensures forward { as_nanos self.old.last.time ≤ as_nanos self.new.last.time }
        ensures seconds { result ≡ as_nanos self.new.last.time / second }
    {
        let wall = self.rt.since_1970().ok();
        if !is_in_second_of(self.last.time, wall) {
            self.last = continued(self.last, wall, monotonic(self.rt));
        }
        self.last.time.as_secs()
    }
}

/// Clock that returns the seconds since a run began, independent of the time of day. If the system's clock cannot be
/// read, it returns 0.
#[derive(Drop)]
pub struct RunClock<'a, R> {
    rt: &'a R,
    began: Duration,
}

impl<'a, R: time::Clock> RunClock<'a, R> {
    /// Returns the clock of a run that begins now.
    pub fn start(rt: &'a R) -> RunClock<'a, R> {
        RunClock {
            rt,
            began: monotonic(rt),
        }
    }

    /// Returns another clock of the same run.
    pub(crate) fn again(&self) -> RunClock<'a, R> {
        RunClock {
            rt: self.rt,
            began: self.began,
        }
    }

    /// Returns the time since the run began.
    pub(crate) fn passed(&self) -> Duration {
        monotonic(self.rt).saturating_sub(self.began)
    }

    /// Returns the time until the next second of the run begins: at most one second.
    pub(crate) fn to_next_second(&self) -> Duration {
        to_next_second(self.passed())
    }
}

impl<'a, R: time::Clock> Clock for RunClock<'a, R> {
    fn now(&mut self) -> u64 {
        self.passed().as_secs()
    }
}

/// Returns the time of the monotonic clock, or zero if it cannot be read.
pub(crate) fn monotonic(rt: &impl time::Clock) -> Duration {
    rt.monotonic().unwrap_or(Duration::ZERO)
}
