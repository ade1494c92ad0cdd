//! The target of a request.

ghost use Rattle.std.specs.Prelude.{◌≡◌};
ghost use Rattle.coap_store.specs.Prelude.{path_of as path_of_request, key_for};

use crate::found::RepresentationRef;
use coap_path::{PathKey, ResourceKind, UriPath};
use coap_wire::MessageRef;

/// Content-Format text/plain (RFC 7252 section 12.3).
pub(crate) const TEXT_PLAIN: u16 = 0;

/// Content-Format application/link-format (RFC 7252 section 12.3).
pub(crate) const LINK_FORMAT: u16 = 40;

/// Target of a request. Its path is that of the request.
#[derive(Drop)]
pub(crate) struct RequestTarget<'s> {
    /// `true` if the path is that of a resource, which may be absent.
    pub is_path: bool,
    /// Kind of resource that the path names.
    pub place: ResourceKind,
    /// Representation, or `None` if the path is absent.
    pub state: Option<RepresentationRef<'s>>,
    /// Index of the resource, if it is a created one.
    pub index: Option<usize>,
}

/// Returns the path of a request's Uri-Path options, or `None` if no resource can have it (RFC 7252 section 5.10.1).
#[tactic(auto, unfolding(crate::specs::Requests::values_of, crate::specs::State::key_for))]
pub fn request_path(request: &MessageRef) -> Option<PathKey>
    ensures { result ≡ key_for (path_of_request request.now) }
{
    let mut path = PathKey::root();
    if !path.fill(UriPath::of(&request.body())) {
        return None;
    }
    Some(path)
}
