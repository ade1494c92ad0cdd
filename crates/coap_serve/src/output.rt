//! Writes all queued bytes of a connection to an outlet.

ghost use Rattle.std.specs.Prelude.{◌≡◌, false, IfOk, OnOk, OnErr, is_err};
ghost use Rattle.coap_serve.specs.Prelude.{AddsBytes, WritesPart, IsReportedFlush, IsCutFlush, session_of};
ghost use Rattle.coap_serve.specs.Prelude.{stop_on, IsFlushedOnce, flush_calls, more_at, LiesAt, FollowsMore};
ghost use Rattle.coap_serve.specs.Prelude.{waiting_at};

use coap_conn::Reason;
use coap_io::{Outlet, WriteFailed, write_parts};
use coap_model::ConnId;
use coap_server_engine::{Call, ConnIndex, FlushStep, Monitor, Server};

/// Writes the bytes that are queued on a new connection. The monitor also receives the end of a turn, because the
/// caller reads next, and a read may wait for the peer.
///
/// # Errors
///
/// - `WriteFailed`: a write failed, and only a part of the bytes was written.
///
/// # Preconditions
///
/// The outlet has not failed.
pub(crate) fn greet<W: Outlet, M: Monitor<()>>(
    writer: &mut W,
    server: &mut Server,
    id: ConnId,
    monitor: &mut M,
) -> Result<(), WriteFailed>
    requires { W.is_failed writer.old ≡ false }
    ensures ok { OnOk result (IsReportedFlush id server.old server.new
        (AddsBytes (W.written writer.old) (W.written writer.new))
        (FollowsMore (M.follows monitor.old) (M.follows monitor.new))) }
    ensures part { OnErr result (IsCutFlush id server.old
        (AddsBytes (W.written writer.old) (W.written writer.new))
        (FollowsMore (M.follows monitor.old) (M.follows monitor.new))) }
    ensures passed { OnOk result (M.has_passed monitor.new) }
    ensures failure { W.is_failed writer.new ≡ is_err result }
{
    let Ok(_) = flush(writer, server, id, monitor) else {
        return Err(WriteFailed);
    };
    monitor.turn_ended();
    Ok(())
}

/// Writes the queued bytes of a connection until none is queued, as `flush_at` does.
///
/// # Errors
///
/// - `WriteFailed`: a write failed, and only a part of the bytes was written.
///
/// # Preconditions
///
/// The outlet has not failed.
#[tactic(auto, using(crate::proofs::streams::FlushLemmas::none_flushed, crate::proofs::streams::FlushLemmas::none_stops))]
pub(crate) fn flush<W: Outlet, M: Monitor<()>>(
    writer: &mut W,
    server: &mut Server,
    id: ConnId,
    monitor: &mut M,
) -> Result<Option<Reason>, WriteFailed>
    requires { W.is_failed writer.old ≡ false }
    ensures ok { OnOk result (IsReportedFlush id server.old server.new
        (AddsBytes (W.written writer.old) (W.written writer.new))
        (FollowsMore (M.follows monitor.old) (M.follows monitor.new))) }
    ensures stop { IfOk result (λ stop. stop ≡ stop_on (session_of id server.new.sessions)) }
    ensures part { OnErr result (IsCutFlush id server.old
        (AddsBytes (W.written writer.old) (W.written writer.new))
        (FollowsMore (M.follows monitor.old) (M.follows monitor.new))) }
    ensures failure { W.is_failed writer.new ≡ is_err result }
{
    let Some(at) = server.index_of(id) else {
        return Ok(None);
    };
    flush_at(writer, server, at, id, monitor)
}

/// Writes the queued bytes of the connection at an index until none is queued. Returns the reason if the connection
/// processes no further message.
///
/// Each write frees space in the queue, so pending responses and notifications that now fit are queued. The number of
/// iterations is at most the pending entries plus the observers plus one.
///
/// # Errors
///
/// - `WriteFailed`: a write failed, and only a part of the bytes was written.
///
/// # Preconditions
///
/// The outlet has not failed. The connection with the id is at the index.
pub(crate) fn flush_at<W: Outlet, M: Monitor<()>>(
    writer: &mut W,
    server: &mut Server,
    at: usize,
    id: ConnId,
    monitor: &mut M,
) -> Result<Option<Reason>, WriteFailed>
    requires works { W.is_failed writer.old ≡ false }
    requires at { LiesAt id at server.old.sessions }
    // The monitor receives the calls that remove the written bytes from the queue.
    ensures ok { OnOk result (IsReportedFlush id server.old server.new
        (AddsBytes (W.written writer.old) (W.written writer.new))
        (FollowsMore (M.follows monitor.old) (M.follows monitor.new))) }
    ensures stop { IfOk result (λ stop. stop ≡ stop_on (session_of id server.new.sessions)) }
    ensures part { OnErr result (IsCutFlush id server.old
        (AddsBytes (W.written writer.old) (W.written writer.new))
        (FollowsMore (M.follows monitor.old) (M.follows monitor.new))) }
    ensures failure { W.is_failed writer.new ≡ is_err result }
    ensures lies { OnOk result (LiesAt id at server.new.sessions) }
{
    let first = flush_once(writer, server, at, id, monitor)?;
    let mut last = first;
    for _ in 0..first.more {
        if !last.waited {
            return Ok(last.stop);
        }
        last = flush_again(writer, server, at, id, monitor)?;
    }
    Ok(last.stop)
}

/// Writes all queued bytes of a connection once, as `Server::flush_once_at` does. The monitor receives the call that
/// removes them from the queue, if there are some.
///
/// # Errors
///
/// - `WriteFailed`: a write failed, and only a part of the bytes was written.
///
/// # Preconditions
///
/// The outlet has not failed. The connection with the id is at the index.
#[inline(always)]
fn flush_once<W: Outlet, M: Monitor<()>>(
    writer: &mut W,
    server: &mut Server,
    at: usize,
    id: ConnId,
    monitor: &mut M,
) -> Result<FlushStep, WriteFailed>
    requires works { W.is_failed writer.old ≡ false }
    requires at { LiesAt id at server.old.sessions }
    ensures ok { IfOk result (λ f. IsFlushedOnce id server.old server.new
        (AddsBytes (W.written writer.old) (W.written writer.new)) f.waited) }
    ensures more { IfOk result (λ f. f.more ≡ more_at id server.old) }
    ensures stop { IfOk result (λ f. f.stop ≡ stop_on (session_of id server.new.sessions)) }
    ensures part { OnErr result (WritesPart (W.written writer.old) (W.written writer.new)
        (waiting_at id server.old)) }
    ensures failure { W.is_failed writer.new ≡ is_err result }
    // The monitor receives the number of bytes that were written.
    ensures reported { IfOk result (λ f. FollowsMore (M.follows monitor.old) (M.follows monitor.new)
        (flush_calls id server.old f.waited)) }
    ensures unreported { OnErr result (monitor.new ≡ monitor.old) }
    ensures lies { OnOk result (LiesAt id at server.new.sessions) }
{
    if !monitor.listens() {
        return server.flush_once_at(ConnIndex { id, at }, writer);
    }
    let more = server.settle_bound(id);
    let waited = write_queued(writer, server, id, monitor)?;
    let stop = stop_in(server, id);
    Ok(FlushStep { waited, more, stop })
}

/// Does the same as `flush_once`, and is never inlined. Most flushes write once.
#[inline(never)]
fn flush_again<W: Outlet, M: Monitor<()>>(
    writer: &mut W,
    server: &mut Server,
    at: usize,
    id: ConnId,
    monitor: &mut M,
) -> Result<FlushStep, WriteFailed>
    requires works { W.is_failed writer.old ≡ false }
    requires at { LiesAt id at server.old.sessions }
    ensures ok { IfOk result (λ f. IsFlushedOnce id server.old server.new
        (AddsBytes (W.written writer.old) (W.written writer.new)) f.waited) }
    ensures more { IfOk result (λ f. f.more ≡ more_at id server.old) }
    ensures stop { IfOk result (λ f. f.stop ≡ stop_on (session_of id server.new.sessions)) }
    ensures part { OnErr result (WritesPart (W.written writer.old) (W.written writer.new)
        (waiting_at id server.old)) }
    ensures failure { W.is_failed writer.new ≡ is_err result }
    // The monitor receives the number of bytes that were written.
    ensures reported { IfOk result (λ f. FollowsMore (M.follows monitor.old) (M.follows monitor.new)
        (flush_calls id server.old f.waited)) }
    ensures unreported { OnErr result (monitor.new ≡ monitor.old) }
    ensures lies { OnOk result (LiesAt id at server.new.sessions) }
{
    flush_once(writer, server, at, id, monitor)
}

/// Writes all queued bytes of a connection, and removes them from the queue. Returns `false` if there are none.
///
/// # Errors
///
/// - `WriteFailed`: a write failed, and only a part of the bytes was written.
///
/// # Preconditions
///
/// The outlet has not failed.
#[tactic(auto, using(coap_server_engine::proofs::scripting::FollowLemmas::followed_none, crate::proofs::streams::FlushLemmas::whole_part))]
fn write_queued<W: Outlet, M: Monitor<()>>(
    writer: &mut W,
    server: &mut Server,
    id: ConnId,
    monitor: &mut M,
) -> Result<bool, WriteFailed>
    requires { W.is_failed writer.old ≡ false }
    ensures ok { IfOk result (λ waited. IsFlushedOnce id server.old server.new
        (AddsBytes (W.written writer.old) (W.written writer.new)) waited) }
    ensures part { OnErr result (WritesPart (W.written writer.old) (W.written writer.new)
        (waiting_at id server.old)) }
    ensures failure { W.is_failed writer.new ≡ is_err result }
    ensures reported { IfOk result (λ waited. FollowsMore (M.follows monitor.old) (M.follows monitor.new)
        (flush_calls id server.old waited)) }
    ensures unreported { OnErr result (monitor.new ≡ monitor.old) }
{
    let Some((first, second)) = server.parts(id) else {
        return Ok(false);
    };
    let count = first.len() + second.len();
    if count == 0 {
        return Ok(false);
    }
    write_parts(writer, first, second)?;
    monitor.accepted(Call::Wrote(id, first, second), server);
    let Ok(()) = server.written(id, count) else {
        unreachable!()
    };
    Ok(true)
}

/// Returns the reason if the connection processes no further message.
pub(crate) fn stop_in(server: &Server, id: ConnId) -> Option<Reason>
    ensures { result ≡ stop_on (session_of id server.now.sessions) }
{
    let status = server.status(id)?;
    status.phase.stop()
}
