//! Settings of a run of `coap-server`, as a command line gives them.

use coap_conn::Limits;
use coap_path::Applications;
use coap_print::LogLevel;
use std::net::IpAddr;

/// Mode of `coap-server`.
#[derive(Drop)]
pub enum Mode {
    /// Server that listens at a numeric address, and at a port of 1 to 65,535.
    Listen(IpAddr, u16),
    /// Server of one connection over standard input and output.
    Stdio,
    /// Run of the script in the file of this name, or in standard input if the name is `-`.
    Script(String),
}

/// Values at which the counts of a server begin.
#[derive(Clone, Copy)]
pub struct StartCounts {
    /// Time at which the server starts, in seconds.
    pub moment: u64,
    /// Number of versions already given.
    pub versions: u64,
    /// Number of connection ids already given, at most 2^64 - 2.
    pub ids: u64,
}

/// Settings of a run of `coap-server`.
#[derive(Drop)]
pub struct ServerPlan {
    /// Mode of the run.
    pub mode: Mode,
    /// Limits of each connection.
    pub limits: Limits,
    /// Maximum number of connections, 1 to 256.
    pub connections: usize,
    /// Maximum number of created resources, 0 to 1,000.
    pub dynamic_max: usize,
    /// Maximum number of iterations of a run, 1 to 1,000,000,000,000.
    pub turns: u64,
    /// Level of the log on standard error.
    pub log: LogLevel,
    /// Maximum time in seconds that a connection may be silent, or 0 if there is no limit.
    pub idle: u32,
    /// Start values of a script or of a run over standard input and output. A listening server does not use them.
    pub starts: StartCounts,
    /// Name of the file of the record, `-` for standard output, or `None` for a run without a record.
    pub record: Option<String>,
    /// Size in bytes at which the record ends, at least 1. A run without a record does not use it.
    pub record_limit: u64,
    /// Entries of the application of a script, or `None` for a run without an application. Only scripts have some.
    pub applications: Option<Applications>,
}
