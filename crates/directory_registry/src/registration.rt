//! The registration of an endpoint.

use arrayvec::ArrayVec;
use directory_links::{AttributeText, LinkText};
use std::collections::BTreeMap;

/// Registration of an endpoint (RFC 9176 section 5).
#[derive(Drop)]
pub struct Registration {
    /// Number of its location, as in `/rd/1`.
    pub number: u64,
    /// Lifetime in seconds.
    pub lifetime: u32,
    /// Time at which it ends, in seconds.
    pub deadline: u64,
    /// Base URI, without a path.
    pub base: Vec<u8>,
    /// Attributes of its endpoint, among them `ep`, without `base`.
    pub attributes: AttributeText,
    /// Links that were registered.
    pub links: LinkText,
}

/// Key of an endpoint: a byte with the length of its sector, its sector, and its name.
pub type EndpointKey = ArrayVec<u8, 127>;

/// Registration with the key of its endpoint.
#[derive(Drop)]
pub(crate) struct Stored {
    pub(crate) key: EndpointKey,
    pub(crate) registration: Registration,
}

/// Registrations by the numbers of their locations.
pub(crate) type Entries = BTreeMap<u64, Stored>;
