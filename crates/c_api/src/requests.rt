//! `Request`, the properties of a request as a C program names them, and URIs as text.

ghost use Rattle.std.specs.Prelude.{◌≡◌, option_map};
ghost use Rattle.c_api.specs.RequestTexts as spec;
ghost use Rattle.coap_client_request.specs.RequestViews.{extras_value};

use crate::bytes::put;
use crate::numbers::{NO_ROOM, SUCCESS, URI_URL, target_number};
use crate::paths::format_of;
use coap_client_request::{Extras, Method, Target};
use std::alloc::Global;
use std::str::from_utf8;

/// Properties of a request besides its URI and its payload.
#[repr(C)]
#[derive(Clone, Copy)]
pub struct Request {
    /// Detail of the method's code: 1 GET, 2 POST, 3 PUT, 4 DELETE.
    pub method: u32,
    /// Bit 0 to register as an observer, and bit 1 to send no Uri-Host.
    pub flags: u32,
    /// Content-Format of the payload, or a number above 65,535 for none.
    pub content_format: u32,
    /// Content-Format of the Accept option, or a number above 65,535 for none.
    pub accept: u32,
}

/// Host and port of a URI.
#[repr(C)]
#[derive(Clone, Copy)]
pub struct Place {
    /// Number of bytes of the host.
    pub host: usize,
    /// 1 for an address, 0 for a name.
    pub is_address: u32,
    /// TCP port.
    pub port: u32,
}

/// Reads a URI. Copies the host and a zero byte to the start of a buffer.
#[unsafe(no_mangle)]
pub extern "C" fn dachreup_raw_target(
    alloc: Global,
    uri: &[u8],
    host: &mut [u8],
    place: &mut Place,
) -> u32
    ensures { spec.IsLocated uri.now host.old host.new place.old place.new result }
{
    let target = match target_of(alloc, uri) {
        Ok(target) => target,
        Err(number) => return number,
    };
    let name = target.host();
    if host.len() <= name.len() {
        return NO_ROOM;
    }
    let end = put(host, 0, name);
    put(host, end, &[0]);
    *place = Place {
        host: end,
        is_address: u32::from(target.is_address()),
        port: u32::from(target.port()),
    };
    SUCCESS
}

/// Returns the method of a request and its extras, or `None` if the method or the flags have another value.
pub(crate) fn call_of<'a>(request: &Request, payload: &'a [u8]) -> Option<(Method, Extras<'a>)>
    ensures { option_map (λ x. (x.0, extras_value x.1)) result ≡ spec.call_of request.now payload.now }
{
    let method = method_of(request.method)?;
    let (observe, plain) = flags_of(request.flags)?;
    let extras = Extras {
        observe,
        plain,
        content_format: format_of(request.content_format),
        accept: format_of(request.accept),
        payload,
        ..Extras::default()
    };
    Some((method, extras))
}

/// Returns the method with this detail.
fn method_of(number: u32) -> Option<Method>
    ensures { result ≡ spec.method_named number }
{
    match number {
        1 => Some(Method::Get),
        2 => Some(Method::Post),
        3 => Some(Method::Put),
        4 => Some(Method::Delete),
        _ => None,
    }
}

/// Returns whether the flags register as an observer, and whether they send no Uri-Host. Returns `None` if another bit
/// is set.
fn flags_of(number: u32) -> Option<(bool, bool)>
    ensures { result ≡ spec.flags_named number }
{
    match number {
        0 => Some((false, false)),
        1 => Some((true, false)),
        2 => Some((false, true)),
        3 => Some((true, true)),
        _ => None,
    }
}

/// Returns the flag with this number, 0 or 1.
pub(crate) fn flag_of(number: u32) -> Option<bool>
    ensures { result ≡ spec.flag_named number }
{
    match number {
        0 => Some(false),
        1 => Some(true),
        _ => None,
    }
}

/// Returns the target of a URI.
///
/// # Errors
///
/// Returns the number of the error.
pub(crate) fn target_of(alloc: Global, uri: &[u8]) -> Result<Target, u32>
    ensures { spec.GivesTarget uri.now result }
{
    let Ok(text) = from_utf8(uri) else {
        return Err(URI_URL);
    };
    match Target::read(alloc, text) {
        Ok(target) => Ok(target),
        Err(fault) => Err(target_number(fault)),
    }
}
