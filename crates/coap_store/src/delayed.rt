//! Responses that are sent at the time of a pending entry.

ghost use Rattle.std.specs.Prelude.{◌≡◌};
ghost use Rattle.coap_store.specs.Prelude.{says, only, delayed_response as delayed_to};
ghost use Rattle.coap_store.specs.Prelude.{expired_response as response_expired};
ghost use Rattle.coap_wire.specs.Codes as code;

use crate::found::{Payload, RepresentationRef};
use crate::plan::{Plan, Watch};
use crate::target::TEXT_PLAIN;
use coap_wire::Code;

/// Returns the plan with the response that is sent after every delay: 2.05 with the payload `done` (RFC 7252 sections
/// 5.2.2, 5.9.1.5).
pub fn delayed_response() -> Plan<'static, 'static>
    ensures { result ≡ says delayed_to }
{
    let found = RepresentationRef::built(TEXT_PLAIN, Payload::Stored(b"done"));
    let mut plan = Plan::new();
    plan.content(None, found, None, Watch::Nothing);
    plan
}

/// Returns the plan with 5.04, for a request that the application did not answer in time (RFC 7252 section 5.9.3.5).
pub fn expired_response() -> Plan<'static, 'static>
    ensures { result ≡ says response_expired }
{
    Plan::of_code(Code::GATEWAY_TIMEOUT)
}

/// Returns the plan for a request whose response cannot be delayed, because too many are: 5.03 (RFC 7252
/// section 5.9.3.4).
pub fn refused_delay() -> Plan<'static, 'static>
    ensures { result ≡ says (only code.service_unavailable) }
{
    Plan::of_code(Code::SERVICE_UNAVAILABLE)
}
