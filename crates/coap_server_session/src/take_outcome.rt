//! Results of taking bytes and of processing a request.

ghost use Rattle.std.specs.Prelude.{◌≡◌, false, None};

/// Result of `Session::take`.
#[derive(Clone, Copy)]
pub struct TakeOutcome {
    /// Number of accepted bytes, which are the first of the slice.
    pub count: usize,
    /// `true` if a message was processed.
    pub handled: bool,
    /// Hash of the path at which the message stored or deleted a resource, if it did.
    pub changed: Option<u8>,
    /// `true` if the message is a request that was handed to the application.
    pub handed: bool,
}

/// Error of `Session::take`: allocation failed for the representation that the message stores.
#[derive(Clone, Copy, Debug)]
pub struct StorageError {
    /// Number of accepted bytes: all bytes of the message but the last.
    pub bytes: usize,
}

impl TakeOutcome {
    /// Returns a result with `count` bytes and no message.
    pub(crate) fn without_message(count: usize) -> TakeOutcome
        ensures { result ≡ record { count = count; handled = false; changed = None; handed = false } }
    {
        TakeOutcome {
            count,
            handled: false,
            changed: None,
            handed: false,
        }
    }
}

/// Effect of a request on the store and on the application.
#[derive(Clone, Copy)]
pub(crate) struct RequestEffect {
    /// Hash of the path at which the request stored or deleted a resource, if it did.
    pub changed: Option<u8>,
    /// `true` if the request became a pending entry of the application.
    pub handed: bool,
}

impl RequestEffect {
    /// Returns the effect of a message that changes nothing and is not handed to the application.
    pub(crate) fn none() -> RequestEffect
        ensures { result ≡ record { changed = None; handed = false } }
    {
        RequestEffect {
            changed: None,
            handed: false,
        }
    }
}
