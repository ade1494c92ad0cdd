//! The meaning of the results of calls on a socket that does not block.

ghost use Rattle.std.specs.Prelude.{◌≡◌};
ghost use Rattle.std.specs.IoError.{error_kind, raw_os_error};
ghost use Rattle.coap_sockets.specs.IoResults as spec;

use coap_io::Got;
use std::io;
use std::io::ErrorKind;
use thiserror::Error;

/// Reason for which an accept gave no connection.
#[derive(Clone, Copy, PartialEq, Eq)]
pub(crate) enum AcceptError {
    /// No pending connection.
    NoneThere,
    /// Failure of one connection or of one call; another connection may be pending.
    Once,
    /// Lack of resources in the system, or another error that may pass with time.
    Full,
}

/// Cause of a failed attempt to connect.
#[derive(Clone, Copy, Debug, PartialEq, Eq, Error)]
pub enum ConnectError {
    /// Name of a host that the system does not know.
    #[error("unknown name")]
    UnknownName,
    /// Refusal by the address: no program listens at the port.
    #[error("connection refused")]
    Refused,
    /// Lack of a route to the address.
    #[error("host unreachable")]
    Unreachable,
    /// Lack of a response in time.
    #[error("timed out")]
    TimedOut,
    /// Any other failure of the system, such as a lack of file descriptors.
    #[error("system fault")]
    System,
}

/// Cause of a failed attempt to listen.
#[derive(Clone, Copy, Debug, PartialEq, Eq, Error)]
pub enum ListenError {
    /// Address and port that another socket uses.
    #[error("address in use")]
    InUse,
    /// Lack of permission, such as for a port below 1024.
    #[error("permission denied")]
    Denied,
    /// Address that is not one of this machine.
    #[error("address not available")]
    NotAvailable,
    /// Any other failure of the system, with the number of its error, or 0 if it has none.
    #[error("{}", io::Error::from_raw_os_error(*.0))]
    System(i32),
}

/// Returns `true` if an error means that the socket has no input or no room.
pub(crate) fn is_would_block(error: io::Error) -> bool
    ensures { result ≡ spec.is_would_block (error_kind error) }
{
    match error.kind() {
        ErrorKind::WouldBlock => true,
        _ => false,
    }
}

/// Returns the result for a call that ended with an error: `Later` if a later call may succeed, otherwise `Failed`.
fn fault_got(error: io::Error) -> Got
    ensures { result ≡ spec.fault_got (error_kind error) }
{
    match error.kind() {
        ErrorKind::WouldBlock => Got::Later,
        ErrorKind::Interrupted => Got::Later,
        _ => Got::Failed,
    }
}

/// Returns the result of a read. A read of no byte has found the end of input.
pub(crate) fn read_got(answer: io::Result<usize>) -> Got
    ensures { result ≡ spec.read_got answer }
{
    match answer {
        Ok(0) => Got::End,
        Ok(count) => Got::Bytes(count),
        Err(error) => fault_got(error),
    }
}

/// Returns the result of a write of at least one byte. A write of no byte has failed.
pub(crate) fn write_got(answer: io::Result<usize>) -> Got
    ensures { result ≡ spec.write_got answer }
{
    match answer {
        Ok(0) => Got::Failed,
        Ok(count) => Got::Bytes(count),
        Err(error) => fault_got(error),
    }
}

/// Returns the reason for which an accept gave no connection, from its error.
pub(crate) fn accept_fault(error: io::Error) -> AcceptError
    ensures { result ≡ spec.accept_fault (error_kind error) }
{
    match error.kind() {
        ErrorKind::WouldBlock => AcceptError::NoneThere,
        ErrorKind::Interrupted => AcceptError::Once,
        ErrorKind::ConnectionAborted => AcceptError::Once,
        _ => AcceptError::Full,
    }
}

/// Returns the cause of a failed attempt to connect, from the error of a system call or of the socket.
pub(crate) fn connect_error_of(error: io::Error) -> ConnectError
    ensures { result ≡ spec.connect_error_of (error_kind error) }
{
    match error.kind() {
        ErrorKind::ConnectionRefused => ConnectError::Refused,
        ErrorKind::HostUnreachable => ConnectError::Unreachable,
        ErrorKind::NetworkUnreachable => ConnectError::Unreachable,
        ErrorKind::NetworkDown => ConnectError::Unreachable,
        ErrorKind::AddrNotAvailable => ConnectError::Unreachable,
        ErrorKind::TimedOut => ConnectError::TimedOut,
        _ => ConnectError::System,
    }
}

/// Returns the cause of a failed attempt to listen, from the error of a system call.
pub(crate) fn listen_error_of(error: io::Error) -> ListenError
    ensures { result ≡ spec.listen_error_of (error_kind error) (raw_os_error error) }
{
    match error.kind() {
        ErrorKind::AddrInUse => ListenError::InUse,
        ErrorKind::PermissionDenied => ListenError::Denied,
        ErrorKind::AddrNotAvailable => ListenError::NotAvailable,
        _ => ListenError::System(number_of(error)),
    }
}

/// Returns the number of an error of the system, or 0 for any other error.
pub(crate) fn number_of(error: io::Error) -> i32
    ensures { result ≡ spec.number_of (raw_os_error error) }
{
    match error.raw_os_error() {
        Some(number) => number,
        None => 0,
    }
}
