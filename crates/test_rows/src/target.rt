//! Rows for targets: `= target`. Each row is a URI.

use crate::row_line::RowLine;
use coap_client_request::Target;
use std::alloc::Global;

/// Writes the number of parts, and each part.
fn tell_parts(parts: &[Vec<u8>], results: &mut RowLine) {
    results.number(parts.len() as u64);
    for part in parts {
        results.hex(part);
    }
}

/// Writes the parts of a target.
pub(crate) fn tell_target(target: &Target, results: &mut RowLine) {
    results.debug(&target.is_address());
    results.hex(target.host());
    results.number(target.port() as u64);
    tell_parts(target.segments(), results);
    tell_parts(target.arguments(), results);
}

/// Parses a URI, and writes the target or the error.
pub(crate) fn play(alloc: Global, text: &str, results: &mut RowLine) {
    match Target::read(alloc, text) {
        Ok(target) => tell_target(&target, results),
        Err(fault) => results.fault(&fault, fault as u8),
    }
}
