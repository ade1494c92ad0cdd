//! Theorems on records, as contracts of functions that do nothing.

ghost use Rattle.std.specs.Prelude.{◌≡◌, ℕ, Bool, All, List, [], ◌∷◌, ◌++◌, Some, Ok, take, true, false};
ghost use Rattle.coap_record.specs.Prelude.{AcceptedCall, Wrote, ScriptEventValue, Drain, script_of, line_of, lines_of};
ghost use Rattle.coap_record.specs.Prelude.{events_said, all_events_said, IsInRange, CanReplay, AnnouncesNoSize};
ghost use Rattle.coap_record.specs.Prelude.{is_printable, newline};
ghost use Rattle.coap_record.specs.Prelude.{ServerValue, Shows, new_server, replayed, event_ran, out_line, waiting_of};
ghost use Rattle.coap_record.specs.Prelude.{side_of, world_after, list_all, server_of, IsRecordOf, SaysNoEvent};
ghost use Rattle.coap_record.specs.Prelude.{with_turns, server_with_turns, writes_of, ReplaysTo, AreWholeLines};
ghost use Rattle.coap_record.specs.Prelude.{whole_lines_in};

use crate::noted::NotedOutlet;
use crate::recorder::Recorder;
use coap_io::Outlet;
use coap_server_engine::Monitor;

/// States that the script reader reads the line of a call back as the event of the call.
///
/// The values of the call must be in the range of the server's types. Each call has exactly one event. There are two
/// exceptions, which have none: accepted bytes if there are none, and an announced message size. The lines of calls are
/// read back as their events in order, and then as the events of the text after them. A comment before them has none.
pub fn lines_are_read_back()
    ensures one { (c : AcceptedCall) → IsInRange c → script_of (line_of c) ≡ Ok (events_said c) }
    ensures all { (cs : List AcceptedCall) → All IsInRange cs → (more : List ℕ) (es : List ScriptEventValue) →
        script_of more ≡ Ok es → script_of (lines_of cs ++ more) ≡ Ok (all_events_said cs ++ es) }
    ensures comment { (text more : List ℕ) (es : List ScriptEventValue) → list_all is_printable text ≡ true →
        script_of more ≡ Ok es → script_of (35 ∷ (text ++ newline ∷ more)) ≡ Ok es }
{}

/// States that a record is faithful: a replay of its events makes the server that accepted the calls.
///
/// - A new server of the same configuration, with the same start values, runs the events. It becomes the server that
///   accepted the calls, so both have the same resources, connections and queued bytes (`server`).
/// - The line of a `drain` has the bytes that the recorded server wrote: the first `n` bytes of those queued. So each
///   connection is sent the same bytes, in the same order (`drained`).
///
/// The limit of turns may be another one. No call may announce a message size, since a script cannot. The encoding of a
/// response of the application must be read back as the response (`CanReplay`).
pub fn a_record_replays()
    ensures server { (v : ServerValue) (calls : List AcceptedCall) (turns : ℕ) → Shows v calls → All CanReplay calls →
        (replayed (new_server (with_turns turns v.config)) (all_events_said calls)).server ≡ server_with_turns turns v }
    ensures drained { (v : ServerValue) (before later : List AcceptedCall) (id n turns : ℕ) →
        Shows v (before ++ Wrote id n ∷ later) → All CanReplay before →
        (event_ran (replayed (new_server (with_turns turns v.config)) (all_events_said before)).server
        (Drain id (Some n))).text
        ≡ out_line id (take n (waiting_of (side_of id (world_after v.config before).sides))) }
{}

/// States that the text of a record replays the run of which it is the record.
///
/// The calls are those of a run: the server after the run shows them (`Shows`), and a `Recorder` received them after
/// its header (`follows`). The header has comments only. No call may announce a message size, since a script cannot. A
/// response of the application is read back from its line, since the recorder has parsed it (`IsRecordable`).
///
/// - The text of a record that has not ended is a script. Its replay leaves the server after the run, and its `drain`
///   lines have the bytes that the run wrote, in order (`whole`).
/// - A record that has ended at its limit replays the first calls in the same way (`limit`).
/// - So does each prefix of whole lines of any record (`lines`): a write may have failed, or the server was killed.
///
/// The replay runs on a new server with the configuration of the recorded one. Its limit of turns may be another one.
pub fn a_recorded_run_replays()
    ensures whole { (v : ServerValue) (header text : List ℕ) (calls : List AcceptedCall) (turns : ℕ) →
        SaysNoEvent header → IsRecordOf header false false (Some text) calls → Shows v calls →
        All AnnouncesNoSize calls →
        ReplaysTo (with_turns turns v.config) text (server_with_turns turns v) (writes_of v.config [] calls) }
    ensures limit { (v : ServerValue) (header text : List ℕ) (calls : List AcceptedCall) (turns : ℕ) →
        SaysNoEvent header → IsRecordOf header false true (Some text) calls → Shows v calls →
        All AnnouncesNoSize calls →
        (front later : List AcceptedCall) × (calls ≡ front ++ later)
        × ReplaysTo (with_turns turns v.config) text (server_of (with_turns turns v.config) front)
        (writes_of v.config [] front) }
    ensures lines { (v : ServerValue) (header text lines part : List ℕ) (calls : List AcceptedCall)
        (has_failed is_full : Bool) (turns : ℕ) →
        SaysNoEvent header → IsRecordOf header has_failed is_full (Some text) calls →
        text ≡ header ++ (lines ++ part) → AreWholeLines lines → Shows v calls →
        All AnnouncesNoSize calls →
        (front later : List AcceptedCall) × (calls ≡ front ++ later)
        × ReplaysTo (with_turns turns v.config) (header ++ lines) (server_of (with_turns turns v.config) front)
        (writes_of v.config [] front) }
{}

/// States that the file of a record replays the first calls, if the system keeps a prefix of the bytes passed to it.
///
/// - The record is of an outlet that keeps the bytes passed on, so also of the file of a program.
/// - The premise on the file system: the bytes that were passed to the outlet are those of `file`, then
///   those of `lost`.
/// - The file has the whole header. Its whole lines after the header replay the first calls.
pub fn a_kept_file_replays<O: Outlet + Drop>(recorder: &Recorder<NotedOutlet<O>>)
    ensures { (v : ServerValue) (header file lost text : List ℕ) (calls : List AcceptedCall) (turns : ℕ) →
        SaysNoEvent header → ⟦<Recorder<NotedOutlet<O>> as Monitor<()>>⟧.follows recorder.now header calls →
        recorder.now.outlet.outlet.passed.bytes ≡ file ++ lost → file ≡ header ++ text →
        Shows v calls → All AnnouncesNoSize calls →
        (front later : List AcceptedCall) × (calls ≡ front ++ later)
        × ReplaysTo (with_turns turns v.config) (header ++ whole_lines_in text)
        (server_of (with_turns turns v.config) front) (writes_of v.config [] front) }
{}
