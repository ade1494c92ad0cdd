//! The calls by which a program learns which connection has output, and when a `tick` is needed, for C.

ghost use Rattle.std.specs.Prelude.{ℕ};
ghost use Rattle.c_api.specs.ServerCalls.{IsNextDeadline, IsNextOutput, yielded_by};
ghost use Rattle.coap_server_polled.specs.Reports.{IsReportedIn, Reports};

use crate::numbers::{EMPTY, NO_MORE, SUCCESS};
use crate::server_handle::ServerHandle;
use std::alloc::Global;

/// Gives the first connection that is due and has unwritten output. It is no longer due.
#[unsafe(no_mangle)]
#[tactic(auto, using(crate::proofs::ServerLemmas::reports_empty))]
pub extern "C" fn dachreup_server_next_output(
    alloc: Global,
    handle: &mut ServerHandle,
    id: &mut u64,
) -> u32
    ensures call { IsNextOutput id.old id.new handle.old.value handle.new.value result }
    ensures output { Reports (yielded_by result id.new) handle.old.value handle.new.value }
    ensures kept { (id : ℕ) → IsReportedIn id handle.old.value → IsReportedIn id handle.new.value }
{
    let Some(mut server) = handle.take_server(alloc) else {
        return EMPTY;
    };
    let found = server.next_output();
    handle.put_back(server);
    match found {
        None => NO_MORE,
        Some(found) => {
            *id = found;
            SUCCESS
        }
    }
}

/// Gives the next time, in seconds, at which time alone may queue something.
#[unsafe(no_mangle)]
pub extern "C" fn dachreup_server_next_deadline(
    alloc: Global,
    handle: &mut ServerHandle,
    seconds: &mut u64,
) -> u32
    ensures { IsNextDeadline seconds.old seconds.new handle.old.value handle.new.value result }
{
    let Some(mut server) = handle.take_server(alloc) else {
        return EMPTY;
    };
    let found = server.engine.next_deadline();
    handle.put_back(server);
    match found {
        None => NO_MORE,
        Some(due) => {
            *seconds = due;
            SUCCESS
        }
    }
}
