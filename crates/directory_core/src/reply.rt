//! `Reply`, the response to a request before it is written.

use crate::refusal::Refusal;

/// Response to a request, before it is written.
#[derive(Clone, Copy)]
pub enum Reply {
    /// The endpoint is registered at the location with this number (2.01).
    Created(u64),
    /// The registration is renewed (2.04).
    Changed,
    /// The registration is removed (2.02).
    Deleted,
    /// The listing has the results of the lookup (2.05).
    Content,
    /// The request is refused.
    Refused(Refusal),
    /// Allocation failed (5.00).
    OutOfMemory,
}
