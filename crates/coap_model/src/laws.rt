//! Theorems on the events of a server. Each is the contract of a function that does nothing. `World` and `Connection`
//! are the server and one connection in the model (`specs/world`).

ghost use Rattle.std.specs.Prelude.{◌≡◌, ℕ, Bool, ◌&&◌, ◌<◌, ◌≤◌, List, [], ◌∷◌, ◌++◌, length, true, false, Some, None};
ghost use Rattle.coap_model.specs.Prelude.{AllByRecursion, Message, StreamFault, LimitValues, AreInRange, AllFit};
ghost use Rattle.coap_model.specs.Prelude.{Responder, Delay, delay_of};
ghost use Rattle.coap_model.specs.Prelude.{bare_response, PendingEntryValue, Answer, Pong, without_due, answers, send};
ghost use Rattle.coap_model.specs.Prelude.{pong_with, is_custody_pong, limit_now, state_now, after, state_due};
ghost use Rattle.coap_model.specs.Prelude.{StoreValue, ConfigValues, Connection, waiting_on, handles};
ghost use Rattle.coap_model.specs.Prelude.{asks_answer, delay_for, moment_after, late_message, next_pending};
ghost use Rattle.coap_model.specs.Prelude.{side_after};
ghost use Rattle.coap_model.specs.Prelude.{side_faulted, side_written, side_ended, side_released, side_announced};
ghost use Rattle.coap_model.specs.Prelude.{side_responded, response_refusal, IsFirstRequest, without_request, KeepsBut};
ghost use Rattle.coap_model.specs.Prelude.{fit, fitted, link_of};
ghost use Rattle.coap_model.specs.Prelude.{settled_once, CorrespondTo, QueuesCustody, IsFirstPending, KeepsPending};
ghost use Rattle.coap_model.specs.Prelude.{KeepsPendingOver, World, Step, new_world, side_of, step, after_steps};
ghost use Rattle.coap_model.specs.Prelude.{AcceptedCall, size_on, stream_on, steps_of, world_after, AreAccepted};
ghost use Rattle.coap_model.specs.Prelude.{kept_on, FollowsAnswers, view_of, after_view, AllConcern, first_number};
ghost use Rattle.coap_model.specs.Prelude.{view_events, IsLastNotification, IsRegistered, TokensAreDistinct};
ghost use Rattle.coap_model.specs.Prelude.{requested_late};
ghost use Rattle.coap_model.specs.Prelude.{ApplicationsValue, Option, application_deadline, prompt_answer};
ghost use Rattle.coap_model.specs.Prelude.{passes_checks, immediate_answer, is_answered, is_dynamic, kind_of_path};
ghost use Rattle.coap_model.specs.Prelude.{path_of, says, only, filter, map, slice_get};
ghost use Rattle.coap_model.specs.Prelude.{QueuesResponse, is_response, responds, response_with_observe, Server};
ghost use Rattle.coap_model.specs.Prelude.{may_register, registration_fits, registered_response, without_token};
ghost use Rattle.coap_model.specs.Prelude.{entry_for, kept_open};
ghost use Rattle.coap_model.specs.Prelude.{ApplicationRequest, is_for_application, is_unanswered, entry_of};
ghost use Rattle.coap_model.specs.Prelude.{is_of_application, has_stopped, HasFate, HaveOwnAnswers, HasOnlyAnswer};
ghost use Rattle.coap_model.specs.Prelude.{requests_on, AreAnswers, given_on, responses_to, IsTimely, has_room};
ghost use Rattle.coap_model.specs.Prelude.{IsGone, IsAccepted, handed_requests, handed_between};
ghost use Rattle.coap_conn.specs.Calls as call;
ghost use Rattle.coap_wire.specs.Codes as code;
ghost use Rattle.coap_model.specs.world.World.{Opened};

/// States that a step queues only messages that fit the limit after the step.
///
/// The limit (`limit_now`) is the largest message that may be sent on the connection. A step appends messages to those
/// that a connection has queued and changes no other. If the step opens the connection and the limits are in range, all
/// its queued messages fit.
pub fn queued_messages_fit_limit()
    ensures more { (limits : LimitValues) (w : World) (st : Step) (id : ℕ) (s t : Connection)
        → side_of id w.sides ≡ Some s →
        side_of id (step limits w st).sides ≡ Some t →
        (more : List Message) × (t.history.queued ≡ s.history.queued ++ more) × AllFit (limit_now t.history) more }
    ensures opened { (limits : LimitValues) (w : World) (id : ℕ) (t : Connection) → AreInRange limits →
        side_of id w.sides ≡ None → side_of id (step limits w (Opened id)).sides ≡ Some t →
        AllFit (limit_now t.history) t.history.queued }
{}

/// States that other connections affect a connection through the store alone.
///
/// The *view* of a connection (`view_of`) lists its own steps, the changes of the time, and the changes of the store.
/// It omits who changed the store. After the view, the connection, the store and the time are the same as after all the
/// steps. The same holds of events, and events with the same view leave the connection the same.
///
/// The view of accepted events (`view_events`) is itself a list of accepted events. There the connection is the first
/// that is opened, so it may have another id. Everything else is the same.
pub fn connections_interact_only_through_store()
    ensures concern { (limits : LimitValues) (id : ℕ) (w : World) (ss : List Step)
        → AllConcern id (view_of limits id w ss) }
    ensures side { (c : ConfigValues) (id : ℕ) (ss : List Step) →
        side_of id (after_steps c.limits (new_world c) ss).sides ≡ side_of id (after_view c id ss).sides }
    ensures store { (c : ConfigValues) (id : ℕ) (ss : List Step) →
        (after_steps c.limits (new_world c) ss).store ≡ (after_view c id ss).store }
    ensures now { (c : ConfigValues) (id : ℕ) (ss : List Step) →
        (after_steps c.limits (new_world c) ss).now ≡ (after_view c id ss).now }
    ensures events_side { (c : ConfigValues) (id : ℕ) (events : List AcceptedCall) →
        side_of id (world_after c events).sides
        ≡ side_of id (after_view c id (steps_of c.limits.max_message events)).sides }
    ensures events_store { (c : ConfigValues) (id : ℕ) (events : List AcceptedCall) →
        (world_after c events).store ≡ (after_view c id (steps_of c.limits.max_message events)).store }
    ensures events_now { (c : ConfigValues) (id : ℕ) (events : List AcceptedCall) →
        (world_after c events).now ≡ (after_view c id (steps_of c.limits.max_message events)).now }
    ensures view_side { (c : ConfigValues) (id : ℕ) (events : List AcceptedCall) →
        AreAccepted c events →
        side_of id (world_after c events).sides
        ≡ side_of (first_number c) (world_after c (view_events c id events)).sides }
    ensures view_store { (c : ConfigValues) (id : ℕ) (events : List AcceptedCall) →
        AreAccepted c events →
        (world_after c events).store ≡ (world_after c (view_events c id events)).store }
    ensures view_now { (c : ConfigValues) (id : ℕ) (events : List AcceptedCall) →
        AreAccepted c events →
        (world_after c events).now ≡ (world_after c (view_events c id events)).now }
    ensures view_accepted { (c : ConfigValues) (id : ℕ) (events : List AcceptedCall) →
        AreAccepted c events →
        AreAccepted c (view_events c id events) }
    ensures alike { (c : ConfigValues) (id : ℕ) (events others : List AcceptedCall) →
        view_of c.limits id (new_world c) (steps_of c.limits.max_message events)
        ≡ view_of c.limits id (new_world c) (steps_of c.limits.max_message others) →
        side_of id (world_after c events).sides ≡ side_of id (world_after c others).sides }
{}

/// States that no limit is exceeded, after any events.
///
/// - `waiting`: the queued bytes of a connection do not exceed the size of its output queue.
/// - `observers`, `pending`: the observers and the pending entries do not exceed their limits.
/// - `kept`: after accepted events, an unfinished message has fewer bytes than the largest message that the connection
///   accepts.
pub fn limits_are_kept()
    ensures waiting { (c : ConfigValues) (events : List AcceptedCall) (id : ℕ) (s : Connection) → AreInRange c.limits →
        side_of id (world_after c events).sides ≡ Some s → length (waiting_on s) ≤ c.limits.queue }
    ensures observers { (c : ConfigValues) (events : List AcceptedCall) (id : ℕ) (s : Connection) →
        side_of id (world_after c events).sides ≡ Some s → length s.observers ≤ c.limits.observers }
    ensures pending { (c : ConfigValues) (events : List AcceptedCall) (id : ℕ) (s : Connection) →
        side_of id (world_after c events).sides ≡ Some s → length s.history.pending ≤ c.limits.pending }
    ensures kept { (c : ConfigValues) (events : List AcceptedCall) (id : ℕ) (s : Connection) → AreInRange c.limits →
        AreAccepted c events → side_of id (world_after c events).sides ≡ Some s →
        length (kept_on s (stream_on c.limits.max_message id events).rest) < s.history.own_max }
{}

/// States that the largest message that a connection accepts is the one that the server announced last on it.
///
/// Before any announcement, the limits of the configuration apply (RFC 8323 section 5.3.1). The events must be accepted
/// ones.
pub fn last_announced_size_applies()
    ensures { (c : ConfigValues) (events : List AcceptedCall) (id : ℕ) (s : Connection) → AreAccepted c events →
        side_of id (world_after c events).sides ≡ Some s →
        s.history.own_max ≡ size_on c.limits.max_message id events }
{}

/// States that each observer was last sent the state that its entry records, after any events.
///
/// - `reported`: consider all responses with the observer's token that were ever queued on its connection. The last one
///   has Observe. It is the 2.05 with the recorded state; or the 2.03 with the ETag of that state, if the registration
///   names this ETag. Observers whose token a request with a delayed response has also used are exempt: the engine or
///   the application delays it.
/// - `registered`: the last request with the observer's token is its registration, a GET of its path with Observe 0.
/// - `tokens`: no two observers of a connection have the same token.
pub fn last_notification_matches_state()
    ensures reported { (c : ConfigValues) (events : List AcceptedCall) (id : ℕ) (s : Connection) →
        side_of id (world_after c events).sides ≡ Some s →
        AllByRecursion (λ o. requested_late c.applications o.token s.history.handled ≡ false →
        IsLastNotification s.history.handled s.history.queued o) s.observers }
    ensures registered { (c : ConfigValues) (events : List AcceptedCall) (id : ℕ) (s : Connection) →
        side_of id (world_after c events).sides ≡ Some s →
        AllByRecursion (IsRegistered s.history.handled) s.observers }
    ensures tokens { (c : ConfigValues) (events : List AcceptedCall) (id : ℕ) (s : Connection) →
        side_of id (world_after c events).sides ≡ Some s → TokensAreDistinct s.observers }
{}

/// States when delayed responses and Pongs with Custody are queued.
///
/// By RFC 8323 section 5.4.1, a Pong with Custody says that every request handled before its Ping was answered.
///
/// - `order`: after any events, the pending entries are in the order of the messages that asked for them. If a client
///   reuses a token, more than one assignment of entries to messages is possible.
/// - `at_once`: a message queues such a Pong only if no entry is pending.
/// - `later`: settling queues such a Pong only if a Pong is the first pending entry.
/// - `pending`: if the engine or the application delays a response, its entry is appended to the pending list, if the
///   list has room.
/// - `sent`: settling sends the response of an entry that is due first. It is 5.04 if the application has not answered.
/// - `faulted`, `ended`, `released`, `announced`, `responded`, `written`: nothing else queues such a Pong.
pub fn custody_comes_last()
    ensures order { (c : ConfigValues) (events : List AcceptedCall) (id : ℕ) (s : Connection) →
        side_of id (world_after c events).sides ≡ Some s
        → CorrespondTo c.applications s.history.handled s.history.pending }
    ensures at_once { (store : StoreValue) (now : ℕ) (s : Connection) (m : Message) →
        QueuesCustody s (side_after store now s m) → s.history.pending ≡ [] }
    ensures later { (store : StoreValue) (now : ℕ) (s : Connection) → QueuesCustody s (settled_once store now s) →
        (token : List ℕ) × IsFirstPending s token }
    ensures pending { (store : StoreValue) (now : ℕ) (s : Connection) (m : Message) (d : Delay) → handles s ≡ true →
        asks_answer s m ≡ true → delay_for (after s.history (call.Handle m)) (delay_of store now m) ≡ Some d →
        (side_after store now s m).history.pending
        ≡ s.history.pending ++ Answer d.by m.token (moment_after now d.seconds) ∷ [] }
    ensures sent { (store : StoreValue) (now : ℕ) (s : Connection) (by : Responder) (token : List ℕ) (moment : ℕ) →
        next_pending now s ≡ Some (Answer by token moment) → (settled_once store now s).history
        ≡ after (after s.history (call.Due now)) (call.Reply (late_message by token)) }
    ensures faulted { (s : Connection) (fault : StreamFault) → QueuesCustody s (side_faulted s fault) → ⊥ }
    ensures ended { (s : Connection) (cut : Bool) → QueuesCustody s (side_ended s cut) → ⊥ }
    ensures released { (s : Connection) → QueuesCustody s (side_released s) → ⊥ }
    ensures announced { (s : Connection) (size : ℕ) → QueuesCustody s (side_announced s size) → ⊥ }
    ensures responded { (s : Connection) (m : Message) → QueuesCustody s (side_responded s m) → ⊥ }
    ensures written { (s : Connection) (n : ℕ) → QueuesCustody s (side_written s n) → ⊥ }
{}

/// States that a Pong with Custody follows the responses to all requests before its Ping (RFC 8323 section 5.4.1).
///
/// Take any Pong with Custody among the messages that a connection has queued, after any events, even if the connection
/// has stopped. The server handled a Ping that asked for this Pong. Each request handled before that Ping has its own
/// response among the messages queued before the Pong.
///
/// Pongs with Custody have different Pings, in the same order. So the second one with a token follows the responses to
/// all requests before the second Ping that asked for it. If the pending list is full, a Ping gets a Pong without
/// Custody. Such a Ping may be taken for the Ping of a later Pong with its token.
///
/// A response counts if it has the token of the request, even if it is bare or a 5.03. No two requests share one
/// response. Responses with the same token are not distinguished, so a notification may count as one.
pub fn a_pong_with_custody_follows_all_answers()
    ensures { (c : ConfigValues) (events : List AcceptedCall) (id : ℕ) (s : Connection)
        (before : List Message) (pong : Message)
        (rest : List Message) →
        side_of id (world_after c events).sides ≡ Some s →
        s.history.queued ≡ before ++ pong ∷ rest →
        is_custody_pong pong ≡ true →
        FollowsAnswers s.history.handled pong before }
{}

/// States that every pending entry is kept until it is sent, unless the connection stops.
///
/// - `message`: a message keeps the pending entries in their places, and appends at most one that it asks for.
/// - `faulted`, `ended`, `released`, `announced`, `written`, `reported`: an error, the end of input, a Release, an
///   announcement, written bytes and notifications keep them too.
/// - `responded`: a response of the application removes the first pending request with its token, and is queued as it
///   fits the peer's limit. All other entries are kept.
/// - `taken`: settling removes exactly the entry that is due first.
/// - `answer`, `pong`: this entry is then sent as it fits the peer's limit: a response, or a Pong with Custody.
///
/// By `custody_comes_last`, a delayed response pending before a Pong with Custody is therefore queued before it, unless
/// the connection stops.
pub fn pending_entries_are_sent()
    ensures message { (store : StoreValue) (now : ℕ) (s : Connection) (m : Message) →
        KeepsPendingOver store.applications m s (side_after store now s m) }
    ensures faulted { (s : Connection) (fault : StreamFault) → KeepsPending s (side_faulted s fault) }
    ensures ended { (s : Connection) (cut : Bool) → KeepsPending s (side_ended s cut) }
    ensures released { (s : Connection) → KeepsPending s (side_released s) }
    ensures announced { (s : Connection) (size : ℕ) → KeepsPending s (side_announced s size) }
    ensures written { (s : Connection) (n : ℕ) → (side_written s n).history.pending ≡ s.history.pending }
    ensures responded { (s : Connection) (m : Message) → answers s.history.phase ≡ true →
        response_refusal (link_of s.history) m ≡ None →
        IsFirstRequest s.history.pending m.token (without_request m.token s.history.pending)
        × ((side_responded s m).history.queued
        ≡ s.history.queued ++ fitted m (bare_response m) (fit (limit_now s.history) m (bare_response m)))
        × KeepsBut (without_request m.token s.history.pending) (side_responded s m) }
    ensures reported { (store : StoreValue) (now : ℕ) (s : Connection) → next_pending now s ≡ None →
        KeepsPending s (settled_once store now s) }
    ensures taken { (store : StoreValue) (now : ℕ) (s : Connection) (e : PendingEntryValue)
        → next_pending now s ≡ Some e →
        answers s.history.phase ≡ true → (settled_once store now s).history.phase ≡ s.history.phase →
        (settled_once store now s).history.pending ≡ without_due now s.history.pending }
    ensures answer { (store : StoreValue) (now : ℕ) (s : Connection) (by : Responder) (token : List ℕ) (moment : ℕ) →
        next_pending now s ≡ Some (Answer by token moment) → answers s.history.phase ≡ true →
        (settled_once store now s).history.queued
        ≡ s.history.queued ++ (send (state_due now (state_now s.history)) (late_message by token)
        (bare_response (late_message by token))).queued }
    ensures pong { (store : StoreValue) (now : ℕ) (s : Connection) (token : List ℕ)
        → next_pending now s ≡ Some (Pong token) →
        (settled_once store now s).history.queued
        ≡ s.history.queued ++ (send (state_due now (state_now s.history)) (pong_with true token)
        (pong_with false token)).queued }
{}

/// States that one response is queued for each request that a connection handles (RFC 7252 section 5.2).
///
/// - `once`: if the response is not delayed, it is that of `prompt_answer`, with the token of the request, and with
///   Observe or without. It is queued as it fits the limit, and nothing else is queued.
/// - `responds`: it has the token of the request, and class 2, 4 or 5, whole or reduced. Whole, it has the code of
///   `prompt_answer`.
/// - `delayed`: if the response is delayed, nothing is queued yet. `pending_entries_are_sent` states what is queued
///   later.
/// - `other`: for a message that asks for no response, none is queued.
pub fn requests_are_answered_once()
    ensures once { (store : StoreValue) (now : ℕ) (s : Connection) (m : Message) → handles s ≡ true →
        asks_answer s m ≡ true → delay_for (after s.history (call.Handle m)) (delay_of store now m) ≡ None →
        (observe : Bool)
        × QueuesResponse m.token observe (prompt_answer store now m).response s (side_after store now s m) }
    ensures responds { (store : StoreValue) (now : ℕ) (m : Message) (observe : Bool) →
        let r = response_with_observe m.token observe (prompt_answer store now m).response in
        (responds m.token r ≡ true) × (responds m.token (bare_response r) ≡ true)
        × (r.code ≡ (prompt_answer store now m).response.code) }
    ensures delayed { (store : StoreValue) (now : ℕ) (s : Connection) (m : Message) (d : Delay) → handles s ≡ true →
        asks_answer s m ≡ true → delay_for (after s.history (call.Handle m)) (delay_of store now m) ≡ Some d →
        (side_after store now s m).history.queued ≡ s.history.queued }
    ensures other { (store : StoreValue) (now : ℕ) (s : Connection) (m : Message) → s.history.role ≡ Server →
        asks_answer s m ≡ false →
        (more : List Message) × ((side_after store now s m).history.queued ≡ s.history.queued ++ more)
        × AllByRecursion (λ n. is_response n ≡ false) more }
{}

/// States that a registration adds an observer (RFC 7641 section 4.1).
///
/// A registration is a GET with Observe 0 of an observable resource, whose response has class 2 (`registers`). As any
/// request, it removes the observer with its token. After that, the limit must allow one more (`may_register`).
///
/// - `added`: if the response with Observe fits the limit, it is queued. An observer with the token, the path and its
///   current state is appended.
/// - `none`: no other request adds an observer. Those with other tokens are kept, if the connection stays open.
/// - `regular`: the response to a request that may not register has no Observe, if it is not delayed.
pub fn registrations_add_observers()
    ensures added { (store : StoreValue) (now : ℕ) (s : Connection) (m : Message) → handles s ≡ true →
        asks_answer s m ≡ true → may_register store now s m ≡ true → registration_fits store now s m ≡ true →
        ((side_after store now s m).observers ≡ without_token m.token s.observers ++ entry_for store now m ∷ [])
        × ((side_after store now s m).history.queued ≡ s.history.queued ++ registered_response store now m ∷ []) }
    ensures none { (store : StoreValue) (now : ℕ) (s : Connection) (m : Message) → handles s ≡ true →
        asks_answer s m ≡ true → (may_register store now s m && registration_fits store now s m) ≡ false →
        (side_after store now s m).observers
        ≡ kept_open (side_after store now s m).history (without_token m.token s.observers) }
    ensures regular { (store : StoreValue) (now : ℕ) (s : Connection) (m : Message) → handles s ≡ true →
        asks_answer s m ≡ true → may_register store now s m ≡ false →
        delay_for (after s.history (call.Handle m)) (delay_of store now m) ≡ None →
        QueuesResponse m.token false (prompt_answer store now m).response s (side_after store now s m) }
{}

/// States which requests the application answers, and how they are answered at once.
///
/// - `none`: without an application, `prompt_answer` is the answer of the store.
/// - `built_in`: the application answers no request for a built-in resource.
/// - `checked`: it answers no request with an unrecognised critical option, and none that asks for proxying. The store
///   answers these with 4.02 and 5.05.
/// - `handed`, `elsewhere`: of the other requests, it answers exactly those whose path and method its entries have.
///   Their deadline is that of the application.
/// - `refused`: if such a request is answered at once, the response is 5.03, and nothing changes.
pub fn application_answers_its_requests()
    ensures none { (s : StoreValue) (now : ℕ) (m : Message) → s.applications ≡ None →
        prompt_answer s now m ≡ immediate_answer s now m }
    ensures built_in { (a : Option ApplicationsValue) (m : Message) → is_dynamic (kind_of_path (path_of m)) ≡ false →
        application_deadline a m ≡ None }
    ensures checked { (a : Option ApplicationsValue) (m : Message) → passes_checks m ≡ false →
        application_deadline a m ≡ None }
    ensures handed { (a : ApplicationsValue) (m : Message) → is_answered a.entries (path_of m) m.code ≡ true →
        passes_checks m ≡ true → application_deadline (Some a) m ≡ Some a.deadline }
    ensures elsewhere { (a : ApplicationsValue) (m : Message) → is_answered a.entries (path_of m) m.code ≡ false →
        application_deadline (Some a) m ≡ None }
    ensures refused { (s : StoreValue) (now : ℕ) (m : Message) (deadline : ℕ) →
        application_deadline s.applications m ≡ Some deadline →
        prompt_answer s now m ≡ says (only code.service_unavailable) }
{}

/// States that each request that the application answers has one fate, after any events.
///
/// `requests_on` computes these requests of a connection from the events, with the fate of each. A request that got a
/// place in the pending list was handed to the application (`handed`). Such a request is pending, was answered once, or
/// was given up by a stop or drop of its connection. Its answer is a response of the application or 5.04. The other
/// requests are answered with 5.03 at once, unless the connection stopped.
///
/// - `requests`: they are exactly the requests for the application among the messages handled, in order.
/// - `handed`: an accepted event adds to those handed to the application the messages that it handled and that became
///   pending entries of the application (`handed_in`). It adds no other.
/// - `pending`: unless the connection has stopped, the unanswered ones are exactly the pending requests. They have the
///   same order, tokens and deadlines.
/// - `unanswered`: unless the connection has stopped, each unanswered one was handed to the application.
/// - `given_up`: a connection that has stopped has no pending entry. So its unanswered requests are given up.
/// - `gone`: after accepted events, a connection that does not exist was dropped, or it never existed and has no
///   requests. If it was dropped, its requests with their fates are those before the drop. So the unanswered
///   ones are given up.
/// - `answered`: the answer to each other request is queued at a place after the request was handled, and has the
///   request's token. It is reduced to fit the limit at that time: the smaller of the local one and the one that the
///   peer announced last.
/// - `own`: no two requests share an answer.
/// - `given`: after accepted events, the responses that the application gave are exactly its answers, each to one
///   request. They are queued in the order in which they were given. One more may have been given: a response that did
///   not fit, not even reduced, and so stopped the connection.
pub fn application_requests_have_one_fate()
    ensures requests { (c : ConfigValues) (events : List AcceptedCall) (id : ℕ) (s : Connection) →
        side_of id (world_after c events).sides ≡ Some s →
        map (λ r. r.request) (requests_on c id events) ≡ filter (is_for_application c.applications) s.history.handled }
    ensures handed { (c : ConfigValues) (events : List AcceptedCall) (e : AcceptedCall) (id : ℕ) (s t : Connection) →
        AreAccepted c events → IsAccepted c events e → side_of id (world_after c events).sides ≡ Some s →
        side_of id (world_after c (events ++ e ∷ [])).sides ≡ Some t →
        handed_requests (requests_on c id (events ++ e ∷ []))
        ≡ handed_requests (requests_on c id events) ++ handed_between (world_after c events) s t }
    ensures pending { (c : ConfigValues) (events : List AcceptedCall) (id : ℕ) (s : Connection) →
        side_of id (world_after c events).sides ≡ Some s → has_stopped s.history.phase ≡ false →
        map entry_of (filter (λ r. is_unanswered r.fate) (requests_on c id events))
        ≡ filter is_of_application s.history.pending }
    ensures unanswered { (c : ConfigValues) (events : List AcceptedCall) (id : ℕ) (s : Connection) →
        side_of id (world_after c events).sides ≡ Some s → has_stopped s.history.phase ≡ false →
        AllByRecursion (λ r. is_unanswered r.fate ≡ true → r.handed ≡ true) (requests_on c id events) }
    ensures given_up { (c : ConfigValues) (events : List AcceptedCall) (id : ℕ) (s : Connection) →
        side_of id (world_after c events).sides ≡ Some s → has_stopped s.history.phase ≡ true → s.history.pending ≡ [] }
    ensures gone { (c : ConfigValues) (events : List AcceptedCall) (id : ℕ) → AreAccepted c events →
        side_of id (world_after c events).sides ≡ None → IsGone c id events }
    ensures answered { (c : ConfigValues) (events : List AcceptedCall) (id : ℕ) (s : Connection) →
        side_of id (world_after c events).sides ≡ Some s →
        AllByRecursion (λ r. HasFate s.history r r.fate) (requests_on c id events) }
    ensures own { (c : ConfigValues) (events : List AcceptedCall) (id : ℕ) (s : Connection) →
        side_of id (world_after c events).sides ≡ Some s → HaveOwnAnswers (requests_on c id events) }
    ensures given { (c : ConfigValues) (events : List AcceptedCall) (id : ℕ) (s : Connection) → AreAccepted c events →
        side_of id (world_after c events).sides ≡ Some s →
        AreAnswers s.history (given_on id events) (responses_to (requests_on c id events)) }
{}

/// States that the deadlines of the requests for the application are kept, after any events.
///
/// - `expired`: a request is answered by 5.04 only if its deadline has come.
/// - `later`: if the connection has room and has not stopped, the deadline of each unanswered request is still to come.
pub fn application_deadlines_are_kept()
    ensures expired { (c : ConfigValues) (events : List AcceptedCall) (id : ℕ) →
        AllByRecursion (λ r. IsTimely (world_after c events).now r.request.token r.deadline r.fate)
        (requests_on c id events) }
    ensures later { (c : ConfigValues) (events : List AcceptedCall) (id : ℕ) (s : Connection) →
        side_of id (world_after c events).sides ≡ Some s → has_stopped s.history.phase ≡ false → has_room s ≡ true →
        AllByRecursion (λ r. is_unanswered r.fate ≡ true → (world_after c events).now < r.deadline)
        (requests_on c id events) }
{}

/// States that the answer to a request for the application is the only response with its token.
///
/// Take any request that the application answers, and the responses with its token that were queued since the server
/// handled it. Two conditions apply: no delayed response with the token was pending at that time, and no
/// request with the token was handled since. Notifications with the token are no exception, because the request
/// removes the observer.
///
/// - `at`: `handled` is the place of the request among the messages handled.
/// - `only`: as long as the request is unanswered, there is no such response. After that there is exactly
///   one: its answer.
pub fn application_answer_is_only_response()
    ensures at { (c : ConfigValues) (events : List AcceptedCall) (id : ℕ) (s : Connection) →
        side_of id (world_after c events).sides ≡ Some s →
        AllByRecursion (λ r. slice_get s.history.handled r.handled ≡ Some r.request) (requests_on c id events) }
    ensures only { (c : ConfigValues) (events : List AcceptedCall) (id : ℕ) (s : Connection) →
        side_of id (world_after c events).sides ≡ Some s →
        AllByRecursion (HasOnlyAnswer s.history.handled s.history.queued) (requests_on c id events) }
{}
