//! The fields of a request beside its method and target: `HEX OBSERVE PLAIN FORMAT ACCEPT OPTION BYTES BYTES`.
//!
//! OBSERVE and PLAIN are 1 or 0. FORMAT and ACCEPT are numbers of Content-Formats, OPTION is the number of a further
//! option, and 65536 means none. The bytes of HEX are a token, the value of that option and the payload. The two
//! fields BYTES are the lengths of the first two.

use crate::row_words::{cut, numbers, read_hex};
use coap_client_request::{Extras, Method};

/// Fields of a request, read from a row.
#[derive(Drop)]
pub(crate) struct RequestFields<'a> {
    /// Token of the observation to cancel.
    pub token: &'a [u8],
    /// The other fields.
    pub extras: Extras<'a>,
}

/// Reads the fields of a request. Their bytes replace those in `bytes`.
pub(crate) fn read_fields<'a>(text: &str, bytes: &'a mut Vec<u8>) -> RequestFields<'a> {
    let (digits, text) = cut(text);
    read_hex(digits, bytes);
    let [
        observe,
        plain,
        content_format,
        accept,
        number,
        token,
        value,
        ..
    ] = numbers(text);
    let (token, rest) = bytes.as_slice().split_at_checked(token).unwrap_or_default();
    let (value, payload) = rest.split_at_checked(value).unwrap_or_default();
    let option = match u16::try_from(number) {
        Ok(number) => Some((number, value)),
        Err(_) => None,
    };
    RequestFields {
        token,
        extras: Extras {
            observe: observe == 1,
            plain: plain == 1,
            content_format: u16::try_from(content_format).ok(),
            accept: u16::try_from(accept).ok(),
            option,
            payload,
            ..Extras::default()
        },
    }
}

/// Returns the method that a word names. Any other word names GET.
pub(crate) fn method(word: &str) -> Method {
    match word {
        "put" => Method::Put,
        "post" => Method::Post,
        "delete" => Method::Delete,
        _ => Method::Get,
    }
}
