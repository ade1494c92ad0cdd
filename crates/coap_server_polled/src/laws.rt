//! The theorem on the output that a server reports.

ghost use Rattle.std.specs.Prelude.{◌≡◌, ◌≢◌, ℕ, List, [], Option, None};
ghost use Rattle.coap_server_polled.specs.declared.polled_server.PolledServer.{PolledServer as Polled};
ghost use Rattle.coap_server_polled.specs.Reports.{AreCalls, IsReportedIn, KeepsReported, Poll, Reports, WasYielded};
ghost use Rattle.coap_server_polled.specs.Reports.{after_calls, unwritten_in};

/// States that no output is lost, in any list of calls from the making of a server on.
///
/// - A connection that has unwritten output and is not due was yielded, and its unwritten output has been the same
///   since (`yielded`). It has neither grown nor been written in part. So a program misses no output if it waits until
///   each yielded connection can be written.
/// - The calls are `next_output`, whose contract has `Reports`, and others, whose contracts have `KeepsReported`
///   (`others`).
pub fn no_output_is_lost()
    ensures yielded { (calls : List Poll) (id : ℕ) → AreCalls None calls →
        IsReportedIn id (after_calls None calls) → unwritten_in id (after_calls None calls) ≢ [] →
        WasYielded id calls }
    ensures others { (before after : Option Polled) → KeepsReported before after → Reports None before after }
{}
