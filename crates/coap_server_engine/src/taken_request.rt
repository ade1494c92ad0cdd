//! The result of a `take` that may have handed a request to the application, or changed a resource.

ghost use Rattle.std.specs.Prelude.{◌≡◌, ◌&&◌, Some, None, is_none, option_and_then, option_copied, if◌then◌else◌};
ghost use Rattle.coap_server_engine.specs.Prelude.{frame_message, frame_key};

use coap_conn::Reason;
use coap_model::Taken;
use coap_path::PathKey;
use coap_store::request_path;
use coap_wire::{MessageRef, parse};

/// Result of `Server::take_request`.
///
/// A take handles at most one message, so at most one of `frame` and `changed` is present.
#[derive(Clone, Copy)]
pub struct TakenRequest<'a> {
    /// Result of the take.
    pub taken: Taken,
    /// Encoded request that the server handed to the application, if the accepted bytes end with one. It is
    /// borrowed from the input slice. If earlier calls had accepted bytes of it, it is borrowed from the buffer of
    /// the connection.
    pub frame: Option<&'a [u8]>,
    /// Encoded request that stored or deleted a resource, if the accepted bytes end with one. It is borrowed
    /// as `frame` is.
    pub changed: Option<&'a [u8]>,
}

impl<'a> TakenRequest<'a> {
    /// Returns the request that the server handed to the application, or `None` if the accepted bytes end with none.
    pub fn request(&self) -> Option<MessageRef<'a>>
        ensures { result ≡ option_and_then frame_message (option_copied self.now.frame) }
    {
        let frame = self.frame?;
        match parse(frame) {
            Ok(message) => Some(message),
            Err(_) => None,
        }
    }

    /// Returns the path at which the take stored or deleted a resource, or `None` if it changed no resource.
    ///
    /// The path is copied from the request. A take that changes nothing copies none.
    pub fn changed_path(&self) -> Option<PathKey>
        ensures { result ≡ option_and_then frame_key (option_copied self.now.changed) }
    {
        let frame = self.changed?;
        match parse(frame) {
            Ok(message) => request_path(&message),
            Err(_) => None,
        }
    }
}

/// Returns the frame if `lends` is `true`.
pub(crate) fn lent_if<'a>(lends: bool, frame: &'a [u8]) -> Option<&'a [u8]>
    ensures { option_copied result ≡ (if lends then Some frame.now else None) }
{
    if lends { Some(frame) } else { None }
}

/// Returns the frame if `lends` is `true` and the connection has no reason of a stop.
pub(crate) fn lent_unless_stopped<'a>(
    lends: bool,
    stop: Option<Reason>,
    frame: &'a [u8],
) -> Option<&'a [u8]>
    ensures { option_copied result ≡ (if lends && is_none stop then Some frame.now else None) }
{
    match stop {
        None => lent_if(lends, frame),
        Some(_) => None,
    }
}
