//! The changes that may make something due on several connections.

/// Change of the state that all connections of a server share.
#[derive(Clone, Copy)]
pub enum Cause {
    /// Change of the resource at a path. The value is the hash of the path (`hash_of`).
    Path(u8),
    /// Change of the time. The value is the time before the change, in seconds.
    Moment(u64),
}
