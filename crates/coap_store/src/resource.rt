//! A created resource.

use coap_path::PathKey;
use indexmap::IndexMap;

/// Created resources, in order of creation.
pub(crate) type Resources = IndexMap<PathKey, Resource>;

/// Resource at a path.
#[derive(Drop)]
pub(crate) struct Resource {
    /// Version of the representation.
    pub version: u64,
    /// Content-Format, if there is one.
    pub format: Option<u16>,
    pub bytes: Vec<u8>,
}
