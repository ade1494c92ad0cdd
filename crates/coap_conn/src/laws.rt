//! Theorems on every connection, each as the contract of a function that does nothing.

ghost use Rattle.std.specs.Prelude.{◌≡◌, ℕ, ◌+◌, ◌<◌, ◌≤◌, ◌&&◌, List, [], ◌∷◌, ◌++◌, length, Bool, true, false};
ghost use Rattle.std.specs.Prelude.{Option, Some, None};
ghost use Rattle.coap_conn.specs.Prelude.{AllByRecursion, list_any, Message, own_csm};
ghost use Rattle.coap_conn.specs.Prelude.{bad_csm_option, has_critical_option, announcement, announced};
ghost use Rattle.coap_conn.specs.Prelude.{token_announcement, announced_token, AllFit, LimitValues, AreInRange};
ghost use Rattle.coap_conn.specs.Prelude.{History, AnnouncedFirst, link_of, new_history, limit_now, state_now};
ghost use Rattle.coap_conn.specs.Prelude.{after, after_send, asking_now, after_asking, Call, release, may_announce};
ghost use Rattle.coap_conn.specs.Prelude.{needs_live, gives_token, announces, asking_refusal, cancel_refusal};
ghost use Rattle.coap_conn.specs.Prelude.{next_token, OutstandingValue, matches_response, matches_pong};
ghost use Rattle.coap_conn.specs.Prelude.{is_notification, is_request_entry, without_matching, without_pinged, stop_of};
ghost use Rattle.coap_conn.specs.Prelude.{PendingEntryValue, Responder, Answer, Pong, NothingIsDue, IsDueFirst};
ghost use Rattle.coap_conn.specs.Prelude.{due_moment};
ghost use Rattle.coap_conn.specs.Prelude.{first_due, without_due, ConnectionState, react, send, abort, stay};
ghost use Rattle.coap_conn.specs.Prelude.{due_effect, is_custody_pong, asks_custody, is_reserved, is_signal, is_method};
ghost use Rattle.coap_conn.specs.Prelude.{Request, Reject, Role, Reason, Whole, fit, fitted, bare_response, answers};
ghost use Rattle.coap_conn.specs.Prelude.{has_request, without_request, IsFirstRequest, response_refusal};
ghost use Rattle.coap_conn.specs.Prelude.{state_without, filter, may_forget, is_entry_of, without_entry_of};
ghost use Rattle.coap_conn.specs.Calls as call;
ghost use Rattle.coap_wire.specs.Codes as code;
ghost use Rattle.coap_conn.specs.Verdicts as verdict;
ghost use Rattle.coap_conn.specs.declared.phase.Phase.TheVariants.{Waiting, Open, Releasing, Stopped};

/// States that the last announcement of the peer counts. Its Max-Message-Size is the last one announced, or 1,152 bytes
/// if there is none (RFC 8323 section 5.3.1). Its longest token is the last one announced, or 8 bytes if there is none
/// (RFC 8974 section 2.2.1).
pub fn last_announcement_counts()
    ensures none { (ms : List Message) → AllByRecursion (λ m. announcement m ≡ None) ms
        → announced ms ≡ 1152 }
    ensures last { (before after : List Message) (m : Message) (n : ℕ) → announcement m ≡ Some n →
        AllByRecursion (λ m. announcement m ≡ None) after → announced (before ++ m ∷ after) ≡ n }
    ensures no_token { (ms : List Message) → AllByRecursion (λ m. token_announcement m ≡ None) ms →
        announced_token ms ≡ 8 }
    ensures last_token { (before after : List Message) (m : Message) (n : ℕ) → token_announcement m ≡ Some n →
        AllByRecursion (λ m. token_announcement m ≡ None) after → announced_token (before ++ m ∷ after) ≡ n }
{}

/// States that each message, at the time when it is queued, fits `max_sent` and the peer's Max-Message-Size.
pub fn queued_messages_fit_limit()
    ensures new { (role : Role) (limits : LimitValues) (tokens : ℕ) → AreInRange limits →
        AllFit (limit_now (new_history role limits tokens)) (new_history role limits tokens).queued }
    ensures message { (h : History) (m : Message) → AllFit (limit_now h) (react (state_now h) m).effect.queued }
    ensures sent { (h : History) (m less : Message) → AllFit (limit_now h) (send (state_now h) m less).queued }
    ensures stopped { (h : History) (why : Reason) → AllFit (limit_now h) (abort (state_now h) why).queued }
    ensures released { (h : History) → 2 ≤ limit_now h → AllFit (limit_now h) (release ∷ []) }
    ensures responded { (h : History) (m : Message) →
        AllFit (limit_now h) (send (state_without m.token (state_now h)) m (bare_response m)).queued }
    ensures due { (h : History) (e : Option PendingEntryValue)
        → AllFit (limit_now h) (due_effect (state_now h) e).queued }
    ensures requested { (h : History) (m : Message) → asking_refusal (asking_now h) m ≡ None →
        AllFit (limit_now h) (m ∷ []) }
    ensures announced { (h : History) (size : ℕ) → may_announce (link_of h) size ≡ true
        → AllFit (limit_now h) (own_csm size ∷ []) }
    ensures cancelled { (h : History) (token : List ℕ) (m : Message) → cancel_refusal (asking_now h) token m ≡ None →
        AllFit (limit_now h) (m ∷ []) }
{}

/// States that the first message queued is the local endpoint's CSM, and that no call changes this (RFC 8323 section
/// 5.3).
pub fn own_announcement_comes_first()
    ensures new { (role : Role) (limits : LimitValues) (tokens : ℕ) → AnnouncedFirst (new_history role limits tokens) }
    ensures call { (h : History) (c : Call) → AnnouncedFirst h → AnnouncedFirst (after h c) }
    ensures sent { (h : History) (m less : Message) → AnnouncedFirst h → AnnouncedFirst (after_send h m less) }
{}

/// States that the largest message accepted has the size announced last, and at first that of the limits. Only
/// `Announce` changes the size (RFC 8323 section 5.3.1).
pub fn own_size_is_announced()
    ensures new { (role : Role) (limits : LimitValues) (tokens : ℕ)
        → (new_history role limits tokens).own_max ≡ limits.max_message }
    ensures announced { (h : History) (size : ℕ) → may_announce (link_of h) size ≡ true
        → after h (call.Announce size) ≡ record h { queued = h.queued ++ own_csm size ∷ []; own_max = size } }
    ensures others { (h : History) (c : Call) → announces c ≡ false → (after h c).own_max ≡ h.own_max }
{}

/// States that no message is taken as a request before the peer's CSM. Only a valid CSM opens the connection (RFC 8323
/// section 3.3).
pub fn peer_announces_before_requests()
    ensures request { (s : ConnectionState) (m : Message) → s.phase ≡ Waiting → (react s m).verdict ≡ Request → ⊥ }
    ensures opens_by_code { (s : ConnectionState) (m : Message) → s.phase ≡ Waiting → (react s m).effect.phase ≡ Open →
        m.code ≡ code.csm }
    ensures opens_whole { (s : ConnectionState) (m : Message) → s.phase ≡ Waiting → (react s m).effect.phase ≡ Open →
        bad_csm_option m ≡ None }
{}

/// States that nothing follows a stop. If no message is accepted, only `Reply`, `Respond`, `Due` and `Written`
/// can have an effect.
/// In phase `Stopped` no response is queued either.
pub fn nothing_follows_a_stop()
    ensures call { (h : History) (c : Call) (why : Reason) → needs_live c ≡ true → stop_of h.phase ≡ Some why →
        after h c ≡ h }
    ensures reported { (s : ConnectionState) (m : Message) (why : Reason) → stop_of s.phase ≡ Some why →
        (react s m).verdict ≡ verdict.Stopped why }
    ensures sent { (h : History) (m less : Message) (why : Reason) → h.phase ≡ Stopped why → after_send h m less ≡ h }
{}

/// States which entry is due first, and that it is removed from the list. Responses whose time has come precede Pongs:
/// the earliest time first, and of equal times the first entry. Otherwise a Pong is due that no entry precedes. No
/// entry is returned only if none is due.
pub fn due_entry_is_first()
    ensures answer { (now : ℕ) (pending : List PendingEntryValue) (by : Responder) (token : List ℕ) (moment : ℕ) →
        first_due now pending ≡ Some (Answer by token moment)
        → IsDueFirst now pending by token moment (without_due now pending) }
    ensures pong { (now : ℕ) (pending : List PendingEntryValue) (token : List ℕ)
        → first_due now pending ≡ Some (Pong token) → pending ≡ Pong token ∷ without_due now pending }
    ensures alone { (now : ℕ) (pending : List PendingEntryValue) (token : List ℕ)
        → first_due now pending ≡ Some (Pong token) →
        AllByRecursion (λ e. due_moment now e ≡ None) pending }
    ensures nothing { (now : ℕ) (pending : List PendingEntryValue) → first_due now pending ≡ None →
        NothingIsDue now pending × (without_due now pending ≡ pending) }
    ensures fewer { (now : ℕ) (pending : List PendingEntryValue) (e : PendingEntryValue)
        → first_due now pending ≡ Some e → length pending ≡ 1 + length (without_due now pending) }
{}

/// States that a response of the application answers the first pending request with its token, and no other. The
/// response that is queued is reduced as `fit` says. If it is sent whole, that request alone is removed. Without such a
/// request, or in phase `Stopped`, nothing changes.
pub fn application_answers_first_request()
    ensures first { (pending : List PendingEntryValue) (token : List ℕ) → has_request token pending ≡ true →
        IsFirstRequest pending token (without_request token pending) }
    ensures others { (pending : List PendingEntryValue) (token : List ℕ) → has_request token pending ≡ false →
        without_request token pending ≡ pending }
    ensures sent { (h : History) (m : Message) → answers h.phase ≡ true → response_refusal (link_of h) m ≡ None →
        (after h (call.Respond m)).queued
        ≡ h.queued ++ fitted m (bare_response m) (fit (limit_now h) m (bare_response m)) }
    ensures answered { (h : History) (m : Message) → answers h.phase ≡ true → response_refusal (link_of h) m ≡ None →
        fit (limit_now h) m (bare_response m) ≡ Whole
        → (after h (call.Respond m)).pending ≡ without_request m.token h.pending }
    ensures absent { (h : History) (m : Message) → has_request m.token h.pending ≡ false
        → after h (call.Respond m) ≡ h }
    ensures stopped { (h : History) (m : Message) (why : Reason) → h.phase ≡ Stopped why
        → after h (call.Respond m) ≡ h }
{}

/// States that a Pong with Custody is queued at once only if no entry is pending (RFC 8323 section 5.4.1). The number
/// of pending entries stays within its limit. A message only appends to the list, a Release leaves it unchanged, and a
/// message that stops the connection empties it.
pub fn custody_waits_for_pending()
    ensures at_once { (s : ConnectionState) (m : Message) → list_any is_custody_pong (react s m).effect.queued ≡ true →
        s.pending ≡ [] }
    ensures few { (s : ConnectionState) (m : Message) → length s.pending ≤ s.most
        → length (react s m).effect.pending ≤ s.most }
    ensures kept { (s : ConnectionState) (m : Message) → stop_of (react s m).effect.phase ≡ None →
        (more : List PendingEntryValue) × ((react s m).effect.pending ≡ s.pending ++ more) }
    ensures released { (s : ConnectionState) (m : Message) (why : Reason) → s.phase ≡ Open →
        (react s m).effect.phase ≡ Releasing why → (react s m).effect.pending ≡ s.pending }
    ensures given_up { (s : ConnectionState) (m : Message) (why : Reason) → stop_of s.phase ≡ None →
        (react s m).effect.phase ≡ Stopped why → (react s m).effect.pending ≡ [] }
{}

/// States that the number of outstanding entries stays within its limit. A message adds none, and a cancellation leaves
/// their number unchanged. A stop and the peer's Release empty the list.
pub fn outstanding_is_limited()
    ensures message { (s : ConnectionState) (m : Message)
        → length (react s m).effect.outstanding ≤ length s.outstanding }
    ensures call { (h : History) (c : Call) → length h.outstanding ≤ h.limits.outstanding →
        length (after h c).outstanding ≤ h.limits.outstanding }
    ensures cancelled { (h : History) (token : List ℕ) (m : Message) →
        length (after h (call.Cancel token m)).outstanding ≡ length h.outstanding }
    ensures given_up { (s : ConnectionState) (m : Message) (why : Reason) → stop_of s.phase ≡ None →
        stop_of (react s m).effect.phase ≡ Some why → (react s m).effect.outstanding ≡ [] }
{}

/// States which outstanding entry a response or a Pong matches: that with its token (RFC 7252 section 5.3.2). After the
/// last response no request or observation has the token. Any other response is a notification and changes nothing (RFC
/// 7641 section 3.6). A response or Pong that matches an entry is reported, and one that matches none changes nothing.
pub fn responses_end_requests()
    ensures answer { (s : ConnectionState) (m : Message) (token : List ℕ) (last : Bool) →
        (react s m).verdict ≡ verdict.Answer token last →
        (token ≡ m.token) × (list_any (matches_response token) s.outstanding ≡ true) }
    ensures last { (s : ConnectionState) (m : Message) (token : List ℕ)
        → (react s m).verdict ≡ verdict.Answer token true →
        (react s m).effect ≡ record (stay s) { outstanding = without_matching token s.outstanding } }
    ensures gone { (token : List ℕ) (outstanding : List OutstandingValue) →
        list_any (matches_response token) (without_matching token outstanding) ≡ false }
    ensures notified { (s : ConnectionState) (m : Message) (token : List ℕ) →
        (react s m).verdict ≡ verdict.Answer token false → (is_notification m ≡ true) × ((react s m).effect ≡ stay s) }
    ensures ended { (s : ConnectionState) (m : Message) (token : List ℕ)
        → (react s m).verdict ≡ verdict.Answer token true →
        is_notification m ≡ true → list_any (λ e. matches_response token e && is_request_entry e) s.outstanding ≡ true }
    ensures pong { (s : ConnectionState) (m : Message) (token : List ℕ) (custody : Bool) →
        (react s m).verdict ≡ verdict.Pong token custody →
        (token ≡ m.token) × (custody ≡ asks_custody m) × (list_any (matches_pong token) s.outstanding ≡ true)
        × ((react s m).effect ≡ record (stay s) { outstanding = without_pinged token s.outstanding }) }
    ensures stranger { (s : ConnectionState) (m : Message) → (react s m).verdict ≡ verdict.Stranger →
        (react s m).effect ≡ stay s }
    ensures response_reported { (s : ConnectionState) (m : Message) → s.phase ≡ Open → is_reserved m.code ≡ false →
        is_signal m.code ≡ false → is_method m.code ≡ false → list_any (matches_response m.token) s.outstanding ≡ true →
        (last : Bool) × ((react s m).verdict ≡ verdict.Answer m.token last) }
    ensures pong_reported { (s : ConnectionState) (m : Message) → s.phase ≡ Open → m.code ≡ code.pong →
        has_critical_option m ≡ false → list_any (matches_pong m.token) s.outstanding ≡ true →
        (react s m).verdict ≡ verdict.Pong m.token (asks_custody m) }
{}

/// States that `Forget` removes the entries with its token, and changes nothing else. A response or a Pong with a token
/// that no entry has is a stranger (RFC 7252 section 5.3.2).
pub fn forgotten_entries_are_gone()
    ensures forgotten { (h : History) (token : List ℕ) → may_forget (link_of h) token ≡ true →
        after h (call.Forget token) ≡ record h { outstanding = without_entry_of token h.outstanding } }
    ensures absent { (h : History) (token : List ℕ) → may_forget (link_of h) token ≡ false →
        after h (call.Forget token) ≡ h }
    ensures gone { (token : List ℕ) (outstanding : List OutstandingValue) →
        list_any (is_entry_of token) (without_entry_of token outstanding) ≡ false }
    ensures others { (token other : List ℕ) (outstanding : List OutstandingValue) → (token ≡ other → ⊥) →
        filter (is_entry_of other) (without_entry_of token outstanding) ≡ filter (is_entry_of other) outstanding }
    ensures response { (s : ConnectionState) (m : Message) → s.phase ≡ Open → is_reserved m.code ≡ false →
        is_signal m.code ≡ false → is_method m.code ≡ false → list_any (is_entry_of m.token) s.outstanding ≡ false →
        (react s m).verdict ≡ verdict.Stranger }
    ensures pong { (s : ConnectionState) (m : Message) → s.phase ≡ Open → m.code ≡ code.pong →
        has_critical_option m ≡ false → list_any (is_entry_of m.token) s.outstanding ≡ false →
        (react s m).verdict ≡ verdict.Stranger }
{}

/// States that tokens do not repeat (RFC 7252 section 5.3.1). The number of a token is one more than that of the last
/// token, and different numbers of 64 bits give different tokens. Only requests and Pings take a new token. A token has
/// at most 8 bytes, which every peer accepts (RFC 8974 section 2.2).
pub fn tokens_are_new()
    ensures different { (one other : ℕ) → one < 18446744073709551615 → other < 18446744073709551615 →
        next_token one ≡ next_token other → one ≡ other }
    ensures requested { (h : History) (m : Message) → asking_refusal (asking_now h) m ≡ None →
        h.tokens < 18446744073709551615 }
    ensures given { (h : History) (m : Message) (e : OutstandingValue) → asking_refusal (asking_now h) m ≡ None →
        (after_asking h m e).tokens ≡ h.tokens + 1 }
    ensures others { (h : History) (c : Call) → gives_token c ≡ false → (after h c).tokens ≡ h.tokens }
    ensures short { (n : ℕ) → length (next_token n) ≤ 8 }
{}
