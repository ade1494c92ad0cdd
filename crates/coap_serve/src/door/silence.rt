//! The rule that ends silent connections, and the times that it needs.

ghost use Rattle.std.specs.Prelude.{◌≡◌, Some};
ghost use Rattle.coap_serve.specs.Prelude.{activity_after, new_activity, quiet_action as quiet};
ghost use Rattle.coap_serve.specs.Prelude.{silence_action as action_of};

use coap_conn::Phase;
use coap_model::Status;

/// Seconds after which a connection is dropped if its peer has sent no CSM.
const CSM_SECONDS: u64 = 10;

/// Seconds after which a released connection is dropped if its queue is not empty. As both times are whole seconds, at
/// most 5 seconds have passed.
const RELEASE_SECONDS: u64 = 4;

/// Times of a connection, in seconds of a clock that never goes back.
#[derive(Clone, Copy)]
pub(super) struct Activity {
    /// Time at which the connection was opened.
    pub(super) opened: u64,
    /// Time at which bytes were last accepted from the peer or written to it.
    pub(super) moved: u64,
    /// Time at which the server released the connection, if it did.
    pub(super) released: Option<u64>,
}

impl Activity {
    /// Returns the times of a connection that is opened.
    pub(super) fn new(now: u64) -> Activity
        ensures { result ≡ new_activity now }
    {
        Activity {
            opened: now,
            moved: now,
            released: None,
        }
    }

    /// Returns the times after the server released the connection.
    pub(super) fn ended(self, now: u64) -> Activity
        ensures { result ≡ record self { released = Some now } }
    {
        Activity {
            released: Some(now),
            ..self
        }
    }

    /// Returns the times after bytes were transferred, if `moved` is `true`.
    pub(super) fn after(self, now: u64, moved: bool) -> Activity
        ensures { result ≡ activity_after now moved self }
    {
        if moved {
            Activity { moved: now, ..self }
        } else {
            self
        }
    }
}

/// Action of a sweep for one connection.
#[derive(Clone, Copy)]
pub(super) enum SilenceAction {
    /// Connection that stays.
    Keep,
    /// Connection to be released, or dropped if it cannot be released.
    Release,
    /// Connection to be dropped.
    Drop,
}

/// Limit of silence, and the present time, in seconds.
#[derive(Clone, Copy)]
pub(super) struct SilenceLimit {
    /// Seconds after which a silent connection is released.
    pub(super) idle: u32,
    /// Present time.
    pub(super) now: u64,
}

/// Returns the action for a connection with this status and activity.
pub(super) fn silence_action(
    limit: SilenceLimit,
    status: Option<Status>,
    activity: Activity,
) -> SilenceAction
    ensures { result ≡ action_of limit.idle limit.now status activity }
{
    let Some(status) = status else {
        return SilenceAction::Keep;
    };
    match activity.released {
        Some(since) if limit.now.saturating_sub(since) >= RELEASE_SECONDS => SilenceAction::Drop,
        Some(_) => SilenceAction::Keep,
        None => quiet_action(limit, status, activity),
    }
}

/// Returns the action for a connection that the server has not released.
fn quiet_action(limit: SilenceLimit, status: Status, activity: Activity) -> SilenceAction
    ensures { result ≡ quiet limit.idle limit.now status activity }
{
    if status.phase == Phase::Waiting && limit.now.saturating_sub(activity.opened) > CSM_SECONDS {
        return SilenceAction::Drop;
    }
    let is_silent = limit.now.saturating_sub(activity.moved) > u64::from(limit.idle);
    if status.observers == 0 && status.pending == 0 && is_silent {
        return SilenceAction::Release;
    }
    SilenceAction::Keep
}
