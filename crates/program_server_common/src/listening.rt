//! The reason why a program cannot listen, and a remedy.

ghost use Rattle.std.specs.Prelude.{◌≡◌};

use coap_sockets::{ListenError, ListenFault};
use program_common::{FAULT, Program};
use std::net::SocketAddr;

/// Reports that a program cannot listen at an address, with the reason and a remedy, and returns the exit status.
pub fn print_listen_fault(
    rt: &impl Eprint,
    program: &Program,
    fault: ListenFault,
    address: SocketAddr,
) -> u8
    ensures { result ≡ 3 }
{
    let status = program.print_fault(rt, fault, FAULT);
    let ListenFault::Socket(error) = fault else {
        return status;
    };
    let (ip, port) = (address.ip(), address.port());
    match error {
        ListenError::InUse => program.print_fault(
            rt,
            format_args!("address {ip} port {port} is already in use; choose another port with -p"),
            status,
        ),
        ListenError::Denied if port < 1_024 => program.print_fault(
            rt,
            format_args!(
                "permission denied for address {ip} port {port}; choose a port from 1024 on with -p"
            ),
            status,
        ),
        ListenError::Denied => program.print_fault(
            rt,
            format_args!("permission denied for address {ip} port {port}; choose another with -p"),
            status,
        ),
        ListenError::NotAvailable => program.print_fault(
            rt,
            format_args!(
                "address {ip} port {port} is not available on this machine; choose another address with -A"
            ),
            status,
        ),
        ListenError::System(_) => program.print_fault(
            rt,
            format_args!("address {ip} port {port}: {error}"),
            status,
        ),
    }
}
