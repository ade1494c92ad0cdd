//! Theorems on a server after any calls, and on scripts.

ghost use Rattle.std.specs.Prelude.{◌≡◌, ◌≢◌, ◌⊎◌, ℕ, Bool, ◌+◌, ◌<◌, ◌^◌, ◌≤◌, List, [], ◌∷◌, ◌++◌, map};
ghost use Rattle.std.specs.Prelude.{false, true, Some, None, Ok};
ghost use Rattle.coap_server_engine.specs.Prelude.{concat, StreamFault, reject_of, reject_reason, takes_messages};
ghost use Rattle.coap_server_engine.specs.Prelude.{IsStore, ConfigValues, IsNotTaken, ServerValue, AreSettled};
ghost use Rattle.coap_server_engine.specs.Prelude.{WaitsForDeadlines, Connection};
ghost use Rattle.coap_server_engine.specs.Prelude.{IsUpToDate, World, new_world, side_of, after_steps, AcceptedCall};
ghost use Rattle.coap_server_engine.specs.Prelude.{Took, stream_on, steps_of, world_after, AreAccepted, Shows};
ghost use Rattle.coap_server_engine.specs.Prelude.{server_of, normalised_step, normalised_steps, kept_at};
ghost use Rattle.coap_server_engine.specs.Prelude.{IsRefusedStored, StoresNothing, ScriptEventValue, in_result};
ghost use Rattle.coap_server_engine.specs.Prelude.{replayed, DifferInCuts, AreInTime, lines_of, other_lines};
ghost use Rattle.coap_server_engine.specs.Prelude.{Message, message_of, ResponseFault, handed_by, server_taken};
ghost use Rattle.coap_server_engine.specs.Prelude.{responded_refusal, response_for, request_in, IsAccepted};
ghost use Rattle.coap_server_engine.specs.Prelude.{AreUnanswered, IsServed, took};
ghost use Rattle.std.specs.Option.{option_to_list};
ghost use Rattle.coap_model.specs.world.Fates.{handed_requests, requests_on};
ghost use Rattle.coap_conn.specs.Responses.{is_plain_response};
ghost use Rattle.coap_conn.specs.declared.phase.Phase.TheVariants.{Stopped};
ghost use Rattle.coap_model.specs.declared.answers.TakeFault.TheVariants.{Memory};
ghost use Rattle.coap_model.specs.declared.answers.ResponseFault.TheVariants as responding;
ghost use Rattle.coap_model.specs.world.World.{Ended};

/// States that no change is lost. After every call, a connection is up to date if its queue has room for a message of
/// `max_sent` bytes:
///
/// - The entry of every observer records the current state of its path as sent. `last_notification_matches_state`
///   says what was queued. Intermediate states may be skipped.
/// - Every delayed response that is due was sent.
/// - No pending Pong is first in the pending list.
pub fn no_change_is_lost()
    ensures { (v : ServerValue) (events : List AcceptedCall) (id : ℕ) (s : Connection) → Shows v events →
        side_of id (world_after v.config events).sides ≡ Some s → IsUpToDate v.shared.store v.shared.now s }
{}

/// States that the division of a stream into slices does not matter.
///
/// - A slice and its two parts, one after the other, make the same steps and leave the same world. This holds whatever
///   events come before and after them (`steps`, `worlds`).
/// - Normalised steps (`normalised_steps`) never say of the end of input after a stop that it truncated a message
///   (`quiet`). They lead to the same world (`received`), and equal steps have equal normalised steps (`alike`).
/// - Equal normalised steps leave equal worlds (`same_steps`). If the bytes kept of unfinished messages are equal too,
///   they leave equal servers (`servers`). So bytes that no connection processes make no difference.
pub fn segmentation_is_irrelevant()
    ensures steps { (max : ℕ) (before rest : List AcceptedCall) (id : ℕ) (xs ys : List ℕ) →
        steps_of max (before ++ Took id (xs ++ ys) ∷ rest)
        ≡ steps_of max (before ++ Took id xs ∷ Took id ys ∷ rest) }
    ensures worlds { (c : ConfigValues) (before rest : List AcceptedCall) (id : ℕ) (xs ys : List ℕ) →
        world_after c (before ++ Took id (xs ++ ys) ∷ rest)
        ≡ world_after c (before ++ Took id xs ∷ Took id ys ∷ rest) }
    ensures received { (c : ConfigValues) (events : List AcceptedCall) →
        after_steps c.limits (new_world c) (normalised_steps c events) ≡ world_after c events }
    ensures alike { (c : ConfigValues) (events others : List AcceptedCall) →
        steps_of c.limits.max_message events ≡ steps_of c.limits.max_message others →
        normalised_steps c events ≡ normalised_steps c others }
    ensures quiet { (w : World) (id : ℕ) (s : Connection) (cut : Bool) →
        side_of id w.sides ≡ Some s →
        takes_messages s.history.phase ≡ false →
        normalised_step w (Ended id cut) ≡ Ended id false }
    ensures same_steps { (c : ConfigValues) (events others : List AcceptedCall) →
        normalised_steps c events ≡ normalised_steps c others →
        world_after c events ≡ world_after c others }
    ensures servers { (c : ConfigValues) (events others : List AcceptedCall) →
        normalised_steps c events ≡ normalised_steps c others →
        ((id : ℕ) → kept_at c events id ≡ kept_at c others id) →
        server_of c events ≡ server_of c others }
{}

/// States that the division of input into `in` lines does not matter in a script.
///
/// - Bytes in one `in`, or in two consecutive ones, leave the same server. So the last of the two reports the same
///   stop. The number of accepted bytes is the same too (`taken`, `after`).
/// - Scripts that differ only in such divisions leave the same server (`servers`). Every event that is no `in` writes
///   the same line, in the same order, so each connection has the same `out` lines (`lines`).
/// - The written text is all lines in order (`text`).
///
/// Moving an `in` past an `in` of another connection is not covered.
pub fn script_segmentation_is_irrelevant()
    ensures taken { (v : ServerValue) (before : List AcceptedCall) (id : ℕ) (xs ys : List ℕ) → Shows v before →
        (in_result v id (xs ++ ys)).count
        ≡ (in_result v id xs).count + (in_result (in_result v id xs).server id ys).count }
    ensures after { (v : ServerValue) (before : List AcceptedCall) (id : ℕ) (xs ys : List ℕ) → Shows v before →
        (in_result v id (xs ++ ys)).server ≡ (in_result (in_result v id xs).server id ys).server }
    ensures servers { (v : ServerValue) (before : List AcceptedCall) (events others : List ScriptEventValue)
        → Shows v before →
        v.ids < 2 ^ 64 → AreInTime events → AreInTime others → DifferInCuts events others →
        (replayed v events).server ≡ (replayed v others).server }
    ensures text { (v : ServerValue) (events : List ScriptEventValue) →
        concat (map (λ l. l.1) (lines_of v events)) ≡ (replayed v events).text }
    ensures lines { (v : ServerValue) (before : List AcceptedCall) (events others : List ScriptEventValue)
        → Shows v before →
        v.ids < 2 ^ 64 → AreInTime events → AreInTime others → DifferInCuts events others →
        other_lines v events ≡ other_lines v others }
{}

/// States which calls on a connection can run out of memory after `open`: only `take` and `announce`.
///
/// - `take` returns `Memory` only if the next byte of the slice would end a message that stores a representation. All
///   bytes of that message but the last are accepted then (`stored`, `other`).
/// - `announce` returns it only for a larger message size, as its own contract states.
/// - The error types of `written`, `release`, `respond`, `ended` and `drop_conn` have no such value. `front` and
///   `status` return no error.
pub fn only_stores_allocate()
    ensures stored { (v after : ServerValue) (events : List AcceptedCall) (id : ℕ) (piece : List ℕ) (bytes : ℕ) →
        Shows v events →
        IsNotTaken v id piece (Memory bytes) after →
        IsRefusedStored v.config events id piece bytes }
    ensures other { (v after : ServerValue) (events : List AcceptedCall) (id : ℕ) (piece : List ℕ) (bytes : ℕ) →
        Shows v events →
        StoresNothing v.config events id piece →
        IsNotTaken v id piece (Memory bytes) after →
        ⊥ }
{}

/// States that nothing happens before it is due. If every connection is settled and the time advances to one before
/// each deadline, only the time changes. The queued bytes, the pending entries and the observers of every connection
/// stay the same.
pub fn waiting_until_next_deadline_is_safe()
    ensures { (v : ServerValue) (later : ℕ) → IsStore v.shared.store → AreSettled v.shared v.sessions →
        v.shared.now ≤ later → later < 2 ^ 64 → WaitsForDeadlines v later }
{}

/// States that an application that writes no response changes nothing. The calls of `take` that `Server::take_all_for`
/// makes for it, such as for `NoApplication`, have the result of `Server::take_all`. They are the same events, and no
/// response is among them.
pub fn unanswered_requests_change_nothing()
    ensures { (v after : ServerValue) (id count : ℕ) (bytes : List ℕ) (events : List AcceptedCall) →
        IsServed v id bytes count after (λ all. events ≡ all) (λ exchanges. AreUnanswered exchanges) →
        (after ≡ (in_result v id bytes).server) × (count ≡ (in_result v id bytes).count) × (events ≡ took v id bytes) }
{}

/// States that each accepted message is processed once.
///
/// After accepted events, a connection has processed the messages that its accepted bytes encode up to the first error,
/// each once and in order. If there is an error, it is the reason for which the connection stopped.
pub fn each_message_taken_is_handled_once()
    ensures messages { (c : ConfigValues) (events : List AcceptedCall) (id : ℕ) (s : Connection)
        → AreAccepted c events →
        side_of id (world_after c events).sides ≡ Some s →
        s.history.handled ≡ (stream_on c.limits.max_message id events).messages }
    ensures fault { (c : ConfigValues) (events : List AcceptedCall) (id : ℕ) (s : Connection) (fault : StreamFault) →
        AreAccepted c events → side_of id (world_after c events).sides ≡ Some s →
        (stream_on c.limits.max_message id events).fault ≡ Some fault →
        s.history.phase ≡ Stopped (reject_reason (reject_of fault)) }
{}

/// States that a take lends exactly the request that it hands to the application.
///
/// An accepted take adds to the requests that were handed over (`handed_requests`) the one that `Server::take_request`
/// lends (`request_in`), if there is one. A take that stops the connection lends none.
pub fn lent_requests_are_handed_over()
    ensures { (c : ConfigValues) (events : List AcceptedCall) (id : ℕ) (bytes : List ℕ) (s t : Connection) →
        AreAccepted c events → IsAccepted c events (Took id bytes) →
        side_of id (world_after c events).sides ≡ Some s →
        side_of id (world_after c (events ++ Took id bytes ∷ [])).sides ≡ Some t →
        takes_messages t.history.phase ≡ true →
        handed_requests (requests_on c id (events ++ Took id bytes ∷ []))
        ≡ handed_requests (requests_on c id events) ++ option_to_list (request_in c events (Took id bytes) id) }
{}

/// States that a response at once has room: one that is given directly after the take that handed over its request.
///
/// A take accepts bytes only if the queue has room for a message of `max_sent` bytes. A request that is handed over
/// queues nothing, and makes nothing else due. So there is room for any response, since no larger message is sent.
///
/// - `refused`: `respond` has two other errors. Bytes that encode no message, or one that is no response or has
///   Observe, are `NotAResponse`. A response whose token no pending request has is `NoSuchRequest`.
/// - `accepted`: a response with the token of the request, of class 2, 4 or 5 and without Observe, is accepted.
/// - `answered`: whatever bytes the application writes, the server accepts these or the 5.00 that `take_all_for` gives
///   in their place. If it writes none, the request stays pending.
///
/// `accepted` and `answered` need a time before the last one, 2^64 - 1. At that time the deadline has come at once, and
/// the server has answered by 5.04.
pub fn responses_at_once_have_room()
    ensures refused { (v : ServerValue) (events : List AcceptedCall) (id : ℕ) (piece bytes : List ℕ) (m : Message)
        (fault : ResponseFault) → Shows v events → handed_by v id piece ≡ Some m →
        responded_refusal (server_taken v id piece) id bytes ≡ Some fault →
        (fault ≡ responding.NotAResponse) ⊎ (fault ≡ responding.NoSuchRequest) }
    ensures accepted { (v : ServerValue) (events : List AcceptedCall) (id : ℕ) (piece bytes : List ℕ)
        (m response : Message) → Shows v events → v.shared.now < 18446744073709551615 →
        handed_by v id piece ≡ Some m →
        message_of bytes ≡ Ok response → response.token ≡ m.token → is_plain_response response ≡ true →
        responded_refusal (server_taken v id piece) id bytes ≡ None }
    ensures answered { (v : ServerValue) (events : List AcceptedCall) (id : ℕ) (piece bytes : List ℕ) (m : Message) →
        Shows v events → v.shared.now < 18446744073709551615 →
        handed_by v id piece ≡ Some m → bytes ≢ [] →
        responded_refusal (server_taken v id piece) id (response_for (server_taken v id piece) id m.token bytes)
        ≡ None }
{}
