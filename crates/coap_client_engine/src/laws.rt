//! Theorems over all clients, each as the contract of a function that does nothing.

ghost use Rattle.std.specs.Prelude.{◌≡◌, ℕ, ◌≤◌, ◌<◌, List, [], ◌∷◌, ◌++◌, length, None, Some, true, false};
ghost use Rattle.coap_client_engine.specs.Prelude.{AllFit, History, limit_now, waiting_of, LimitValues, AreInRange};
ghost use Rattle.coap_client_engine.specs.Prelude.{reject_of, reject_reason, Message, StreamFault, ClientCall};
ghost use Rattle.coap_client_engine.specs.Prelude.{ClientStep, AreAccepted, Took, client_after, client_of, steps_by};
ghost use Rattle.coap_client_engine.specs.Prelude.{steps_of, step, stream_in, size_in, AreDifferent, tokens_given};
ghost use Rattle.coap_client_engine.specs.Prelude.{list_any, may_forget, is_entry_of, link_of, Forgot, KeepsSize};
ghost use Rattle.coap_client_engine.specs.Prelude.{AllByRecursion, flat_map, split, taken_by};
ghost use Rattle.coap_conn.specs.declared.phase.Phase.TheVariants.{Stopped};

/// States that no limit is exceeded after any calls that a client accepts.
///
/// The limits are those of buffered input, of queued bytes, and of the number of outstanding requests. The pending list
/// of a client is always empty.
pub fn limits_are_kept()
    ensures kept { (limits : LimitValues) (tokens : ℕ) (calls : List ClientCall) → AreInRange limits →
        AreAccepted limits tokens calls →
        length (client_of limits tokens calls).frame < size_in limits.max_message calls }
    ensures waiting { (limits : LimitValues) (tokens : ℕ) (calls : List ClientCall) → AreInRange limits →
        AreAccepted limits tokens calls → length (waiting_of (client_after limits tokens calls)) ≤ limits.queue }
    ensures outstanding { (limits : LimitValues) (tokens : ℕ) (calls : List ClientCall) → AreInRange limits →
        AreAccepted limits tokens calls → length (client_after limits tokens calls).outstanding ≤ limits.outstanding }
    ensures pending { (limits : LimitValues) (tokens : ℕ) (calls : List ClientCall) →
        (client_after limits tokens calls).pending ≡ [] }
{}

/// States that the largest message that a client accepts is the one that it announced last (RFC 8323 section 5.3.1).
///
/// - `last`: after accepted calls, this size applies. Before any announcement, it is that of the limits.
/// - `none`: without an announcement, the size of the limits applies to all bytes.
pub fn last_announced_size_applies()
    ensures last { (limits : LimitValues) (tokens : ℕ) (calls : List ClientCall) → AreAccepted limits tokens calls →
        (client_of limits tokens calls).link.own_max ≡ size_in limits.max_message calls }
    ensures none { (M : ℕ) (calls : List ClientCall) → AllByRecursion KeepsSize calls →
        (size_in M calls ≡ M) × (stream_in M calls ≡ split M (flat_map taken_by calls)) }
{}

/// States that the processed messages are exactly those that the accepted bytes encode.
///
/// If the accepted bytes are malformed, the connection stops with the reason of that error (RFC 8323 section 3.2).
pub fn messages_are_those_spelled()
    ensures messages { (limits : LimitValues) (tokens : ℕ) (calls : List ClientCall) → AreInRange limits →
        AreAccepted limits tokens calls →
        (client_after limits tokens calls).handled ≡ (stream_in limits.max_message calls).messages }
    ensures fault { (limits : LimitValues) (tokens : ℕ) (calls : List ClientCall) (fault : StreamFault) →
        AreInRange limits → AreAccepted limits tokens calls → (stream_in limits.max_message calls).fault ≡ Some fault →
        (client_after limits tokens calls).phase ≡ Stopped (reject_reason (reject_of fault)) }
{}

/// States that a connection gives each token once, to a request or to a Ping (RFC 7252 section 5.3.1).
pub fn tokens_are_given_once()
    ensures { (limits : LimitValues) (tokens : ℕ) (calls : List ClientCall) → AreAccepted limits tokens calls →
        AreDifferent (tokens_given limits tokens calls) }
{}

/// States that a forgotten token is never outstanding again, whatever calls follow. A response or a Pong with it is a
/// stranger (`forgotten_entries_are_gone` of `coap_conn`).
pub fn forgotten_tokens_stay_forgotten()
    ensures { (limits : LimitValues) (tokens : ℕ) (earlier later : List ClientCall) (token : List ℕ) →
        may_forget (link_of (client_after limits tokens earlier)) token ≡ true → list_any (is_entry_of token)
        (client_after limits tokens (earlier ++ Forgot token ∷ later)).outstanding ≡ false }
{}

/// States that every message that a step queues fits the limit of the peer and the local limit at that time.
pub fn queued_messages_fit_limit()
    ensures { (h : History) (s : ClientStep) →
        (more : List Message) × ((step h s).queued ≡ h.queued ++ more) × AllFit (limit_now h) more }
{}

/// States that segmentation is irrelevant: an input slice and its two parts in turn make the same steps.
///
/// They also leave the same client, for any calls before and after them.
pub fn segmentation_is_irrelevant()
    ensures steps { (M : ℕ) (earlier later : List ClientCall) (one other : List ℕ) →
        steps_of M (earlier ++ Took (one ++ other) ∷ later) ≡ steps_of M (earlier ++ Took one ∷ Took other ∷ later) }
    ensures client { (limits : LimitValues) (tokens : ℕ) (earlier later : List ClientCall) (one other : List ℕ) →
        client_of limits tokens (earlier ++ Took (one ++ other) ∷ later)
        ≡ client_of limits tokens (earlier ++ Took one ∷ Took other ∷ later) }
{}
