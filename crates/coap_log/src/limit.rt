//! `LineLimit`, which limits the number of lines a second.

ghost use Rattle.std.specs.Prelude.{◌≡◌};
ghost use Rattle.coap_log.specs.Limits as spec;

/// Maximum number of lines that are written in one second of the clock.
pub const LINES_A_SECOND: u64 = 100;

/// Number of these lines that only the end of a log has: the report of lines left out, and the last line.
const LAST_LINES: u64 = 2;

/// Decision on a line.
#[derive(Clone, Copy, Debug, PartialEq, Eq)]
pub enum Admission {
    /// The line is left out.
    LeftOut,
    /// The line is written.
    Line,
    /// A line that reports this number of lines left out is written, followed by the line.
    AfterReport(u64),
}

/// Limit on the number of lines a second, and count of the lines left out.
///
/// In one second of the clock, at most 100 lines are written, two of them only at the end of the log. If lines were
/// left out, the first line of the next second reports their number, and that line counts as one of the 100. A clock
/// that goes back begins a new second too.
#[derive(Clone, Copy, Debug, PartialEq, Eq)]
pub struct LineLimit {
    /// Present second: that of the last call.
    pub second: u64,
    /// Number of lines written in the present second.
    pub written: u64,
    /// Number of lines left out that no line has reported. It saturates at the maximum of `u64`.
    pub left_out: u64,
    /// `true` at the end of the log.
    pub is_ending: bool,
}

impl LineLimit {
    /// Creates a limit for a log without lines.
    pub fn new() -> LineLimit
        ensures { result ≡ spec.fresh }
    {
        LineLimit {
            second: 0,
            written: 0,
            left_out: 0,
            is_ending: false,
        }
    }

    /// Decides on a line at a time, in seconds since 1970, and counts it.
    #[tactic(auto, unfolding(crate::specs::Limits::admission, crate::specs::Limits::after_admission))]
    pub fn admit(&mut self, second: u64) -> Admission
        ensures answer { result ≡ spec.admission self.old second }
        ensures after { self.new ≡ spec.after_admission self.old second }
    {
        let report = self.report(second);
        if self.written >= self.most() {
            self.miss(1);
            return Admission::LeftOut;
        }
        self.written += 1;
        match report {
            Some(count) => Admission::AfterReport(count),
            None => Admission::Line,
        }
    }

    /// Returns the number of lines left out, if a line that reports it is due at a time, in seconds since 1970. This is
    /// so if the second is new and lines were left out before. The report counts as a line, and its lines as reported.
    #[tactic(auto, unfolding(crate::specs::Limits::report, crate::specs::Limits::after_report))]
    pub fn report(&mut self, second: u64) -> Option<u64>
        ensures answer { result ≡ spec.report self.old second }
        ensures after { self.new ≡ spec.after_report self.old second }
    {
        self.begin(second);
        if self.written > 0 || self.left_out == 0 {
            return None;
        }
        let count = self.left_out;
        self.written = 1;
        self.left_out = 0;
        Some(count)
    }

    /// Begins the end of the log at a time, in seconds since 1970. Returns the number of lines left out, if there are
    /// any: the line that reports it is due at once. The report counts as a line, and its lines as reported. A line is
    /// admitted after it, even if the second had no more lines.
    #[tactic(auto, unfolding(crate::specs::Limits::last_report, crate::specs::Limits::after_end))]
    pub fn end(&mut self, second: u64) -> Option<u64>
        ensures answer { result ≡ spec.last_report self.old second }
        ensures after { self.new ≡ spec.after_end self.old second }
    {
        self.begin(second);
        self.is_ending = true;
        if self.left_out == 0 || self.written >= LINES_A_SECOND {
            return None;
        }
        let count = self.left_out;
        self.written += 1;
        self.left_out = 0;
        Some(count)
    }

    /// Counts lines that were admitted, but could not be written. They are part of the next report.
    #[tactic(auto, unfolding(crate::specs::Limits::missed))]
    pub fn miss(&mut self, count: u64)
        ensures { self.new ≡ spec.missed count self.old }
    {
        self.left_out = self.left_out.saturating_add(count);
    }

    /// Returns the maximum number of lines of the present second.
    fn most(&self) -> u64
        ensures { result ≡ spec.most_in self.now }
    {
        if self.is_ending {
            LINES_A_SECOND
        } else {
            LINES_A_SECOND - LAST_LINES
        }
    }

    /// Begins a second, if it is not the present one.
    fn begin(&mut self, second: u64)
        ensures { self.new ≡ spec.begun self.old second }
    {
        if second != self.second {
            self.second = second;
            self.written = 0;
        }
    }
}
