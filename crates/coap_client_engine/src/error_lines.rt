//! Lines and payloads that a run of the client writes.

ghost use Rattle.std.specs.Prelude.{◌≡◌, false, is_err, OnOk};
ghost use Rattle.coap_client_engine.specs.Prelude.{AddsBytes};
ghost use Rattle.coap_client_engine.specs.RunTexts as text;

use coap_client_request::ClientPlan;
use coap_conn::{Reason, RequestFault};
use coap_io::{Outlet, WriteFailed, write_all};
use coap_wire::{Code, MessageRef};
use itoa::Buffer;

/// Writes a text, a number and a newline.
fn report_number<E: Outlet>(err: &mut E, words: &str, number: u64) -> Result<(), WriteFailed>
    requires { E.is_failed err.old ≡ false }
    ensures ok { OnOk result (AddsBytes (E.written err.old) (E.written err.new) (text.number_line words.now number)) }
    ensures failure { E.is_failed err.new ≡ is_err result }
{
    write_all(err, words.as_bytes())?;
    write_all(err, Buffer::new().format(number).as_bytes())?;
    write_all(err, b"\n")
}

/// Writes the line for a stopped connection, with the number of the reason.
pub(crate) fn report_stop<E: Outlet>(err: &mut E, reason: Reason) -> Result<(), WriteFailed>
    requires { E.is_failed err.old ≡ false }
    ensures ok { OnOk result (AddsBytes (E.written err.old) (E.written err.new) (text.stop_line reason)) }
    ensures failure { E.is_failed err.new ≡ is_err result }
{
    report_number(err, "stopped ", reason.number() as u64)
}

/// Writes the line for a failed request, with the number of the error.
pub(crate) fn report_refusal<E: Outlet>(err: &mut E, fault: RequestFault) -> Result<(), WriteFailed>
    requires { E.is_failed err.old ≡ false }
    ensures ok { OnOk result (AddsBytes (E.written err.old) (E.written err.new) (text.fault_line fault)) }
    ensures failure { E.is_failed err.new ≡ is_err result }
{
    report_number(err, "request fault ", fault as u64)
}

/// Writes the line for a critical option that is not recognised, with its number.
pub(crate) fn report_option<E: Outlet>(err: &mut E, number: u16) -> Result<(), WriteFailed>
    requires { E.is_failed err.old ≡ false }
    ensures ok { OnOk result (AddsBytes (E.written err.old) (E.written err.new) (text.option_line number)) }
    ensures failure { E.is_failed err.new ≡ is_err result }
{
    report_number(err, "bad option ", number as u64)
}

/// Writes the line for a response: its code, such as `4.04`, and its payload if it has one.
pub(crate) fn report_response<E: Outlet>(
    err: &mut E,
    response: &MessageRef,
) -> Result<(), WriteFailed>
    requires { E.is_failed err.old ≡ false }
    ensures ok { OnOk result (AddsBytes (E.written err.old) (E.written err.new)
        (text.response_line response.now.code response.now.payload)) }
    ensures failure { E.is_failed err.new ≡ is_err result }
{
    write_all(err, &code_text(response.code()))?;
    let payload = response.payload();
    if !payload.is_empty() {
        write_all(err, b" ")?;
        write_all(err, payload)?;
    }
    write_all(err, b"\n")
}

/// Writes a payload, followed by a newline if the plan has one. An empty payload writes nothing.
pub(crate) fn write_payload<O: Outlet>(
    out: &mut O,
    payload: &[u8],
    plan: &ClientPlan,
) -> Result<(), WriteFailed>
    requires { O.is_failed out.old ≡ false }
    ensures ok { OnOk result (AddsBytes (O.written out.old) (O.written out.new)
        (text.payload_text payload.now plan.now)) }
    ensures failure { O.is_failed out.new ≡ is_err result }
{
    if payload.is_empty() {
        return Ok(());
    }
    write_all(out, payload)?;
    if plan.newline {
        write_all(out, b"\n")?;
    }
    Ok(())
}

/// Returns the text of a code: the class, a dot, and the detail in two digits (RFC 7252 section 3).
fn code_text(code: Code) -> [u8; 4]
    ensures { result ≡ text.code_text code }
{
    let detail = code.detail();
    [
        b'0' + code.class(),
        b'.',
        b'0' + detail / 10,
        b'0' + detail % 10,
    ]
}
