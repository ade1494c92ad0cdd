//! `Event`, one line of a script.

use coap_store::PathKey;

/// Event of a server with several connections, as a line of a script names it. It may fail when it is run.
#[derive(Drop)]
pub enum Event {
    /// A connection is opened.
    Open,
    /// Bytes arrive on a connection.
    In {
        /// Id of the connection.
        connection: u64,
        /// The bytes, at least one.
        bytes: Vec<u8>,
    },
    /// Bytes queued on a connection are written.
    Drain {
        /// Id of the connection.
        connection: u64,
        /// Largest number of bytes to write; `None` for all.
        most: Option<u64>,
    },
    /// The time changes.
    Tick {
        /// New time, in seconds.
        moment: u64,
    },
    /// A resource is stored.
    Put {
        /// Path of the resource.
        path: PathKey,
        /// Content-Format of the resource, if it has one.
        format: Option<u16>,
        /// Bytes of the resource; there may be none.
        payload: Vec<u8>,
    },
    /// A resource is removed.
    Remove {
        /// Path of the resource.
        path: PathKey,
        /// Text of the path, as it is in the script.
        text: Vec<u8>,
    },
    /// The input of a connection ends.
    End {
        /// Id of the connection.
        connection: u64,
    },
    /// The server sends a Release on a connection.
    Release {
        /// Id of the connection.
        connection: u64,
    },
    /// The application responds to a request that it answers.
    Respond {
        /// Id of the connection.
        connection: u64,
        /// The encoded response, at least one byte.
        response: Vec<u8>,
    },
    /// A connection is dropped.
    Drop {
        /// Id of the connection.
        connection: u64,
    },
    /// The status of a connection is reported.
    Status {
        /// Id of the connection.
        connection: u64,
    },
}
