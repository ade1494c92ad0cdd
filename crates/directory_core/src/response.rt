//! The response of a reply, written as a message.

ghost use Rattle.std.specs.Prelude.{◌≡◌, ◌-◌, ◌≤◌, ◌++◌, length, decimal, nat_le, option_map, vec_len, vec_capacity};
ghost use Rattle.std.specs.Bool.{OnTrue, OnFalse};
ghost use Rattle.directory_core.specs.Prelude.{spelling, location_message, content_message, short_message};
ghost use Rattle.directory_core.specs.Prelude.{message_of, fits};

use crate::reply::Reply;
use coap_text::decimal_digits;
use coap_wire::option_numbers::{CONTENT_FORMAT, LOCATION_PATH};
use coap_wire::{Code, MessageBuilder, Sink, Token, TokenRef};

/// Builder of a response.
type Response<'a> = MessageBuilder<'a, 2>;

/// Appends a message if there is room for it.
fn append(message: &Response, out: &mut Vec<u8>) -> bool
    ensures written { OnTrue result (out.new.items ≡ out.old.items ++ spelling message.now) }
    ensures unchanged { OnFalse result (out.new ≡ out.old) }
    ensures capacity { vec_capacity out.new ≡ vec_capacity out.old }
    ensures answer { result ≡ nat_le (length (spelling message.now)) (vec_capacity out.old - vec_len out.old) }
{
    if message.size() > out.room() as u64 {
        return false;
    }
    message.write(out);
    true
}

/// Appends the response to a registration, at the location with this decimal number.
fn write_location<'a>(digits: &'a [u8], token: &'a Token, out: &mut Vec<u8>) -> bool
    requires { length digits.now ≤ 20 }
    ensures written { OnTrue result
        (out.new.items ≡ out.old.items ++ spelling (location_message token.now.items digits.now)) }
    ensures answer { result
        ≡ fits (vec_capacity out.old - vec_len out.old) (location_message token.now.items digits.now) }
    ensures unchanged { OnFalse result (out.new ≡ out.old) }
    ensures capacity { vec_capacity out.new ≡ vec_capacity out.old }
{
    let mut message = Response::new(Code::CREATED, token);
    let Ok(()) = message.option(LOCATION_PATH, b"rd") else {
        unreachable!()
    };
    let Ok(()) = message.option(LOCATION_PATH, digits) else {
        unreachable!()
    };
    append(&message, out)
}

/// Appends the response to a registration.
fn write_created(number: u64, token: &TokenRef, out: &mut Vec<u8>) -> bool
    ensures written { OnTrue result
        (out.new.items ≡ out.old.items ++ spelling (location_message token.now (decimal number))) }
    ensures answer { result
        ≡ fits (vec_capacity out.old - vec_len out.old) (location_message token.now (decimal number)) }
    ensures unchanged { OnFalse result (out.new ≡ out.old) }
    ensures capacity { vec_capacity out.new ≡ vec_capacity out.old }
{
    let digits = decimal_digits(number);
    let token = token.to_token();
    write_location(&digits, &token, out)
}

/// Appends the response to a lookup. Returns `false` also if the results are too long for a message.
fn write_content<'a>(text: &'a [u8], token: &TokenRef<'a>, out: &mut Vec<u8>) -> bool
    ensures written { OnTrue result (out.new.items ≡ out.old.items ++ spelling (content_message token.now text.now)) }
    ensures answer { result ≡ fits (vec_capacity out.old - vec_len out.old) (content_message token.now text.now) }
    ensures unchanged { OnFalse result (out.new ≡ out.old) }
    ensures capacity { vec_capacity out.new ≡ vec_capacity out.old }
{
    let mut message = Response::with_token_ref(Code::CONTENT, token.copy());
    let Ok(()) = message.option(CONTENT_FORMAT, b"\x28") else {
        unreachable!()
    };
    if message.payload(text).is_err() {
        return false;
    }
    append(&message, out)
}

/// Appends a response without options.
fn write_short<'a>(code: Code, text: &'a [u8], token: &TokenRef<'a>, out: &mut Vec<u8>) -> bool
    ensures written { OnTrue result
        (out.new.items ≡ out.old.items ++ spelling (short_message token.now code text.now)) }
    ensures answer { result ≡ fits (vec_capacity out.old - vec_len out.old) (short_message token.now code text.now) }
    ensures unchanged { OnFalse result (out.new ≡ out.old) }
    ensures capacity { vec_capacity out.new ≡ vec_capacity out.old }
{
    let mut message = Response::with_token_ref(code, token.copy());
    if message.payload(text).is_err() {
        return false;
    }
    append(&message, out)
}

/// Appends the response of a reply, where `content` is the result of the last lookup. Returns `false`, and appends
/// nothing, if there is no room for it, or if `content` has more than 1,048,576 bytes.
pub fn write_response<'a>(
    reply: Reply,
    content: Option<&'a [u8]>,
    token: &TokenRef<'a>,
    out: &mut Vec<u8>,
) -> bool
    ensures written { OnTrue result (out.new.items
        ≡ out.old.items ++ spelling (message_of token.now (option_map (λ c. c.now) content.entry) reply)) }
    ensures answer { result ≡ fits (vec_capacity out.old - vec_len out.old)
        (message_of token.now (option_map (λ c. c.now) content.entry) reply) }
    ensures unchanged { OnFalse result (out.new ≡ out.old) }
    ensures capacity { vec_capacity out.new ≡ vec_capacity out.old }
{
    match reply {
        Reply::Created(number) => write_created(number, token, out),
        Reply::Changed => write_short(Code::CHANGED, b"", token, out),
        Reply::Deleted => write_short(Code::DELETED, b"", token, out),
        Reply::Content => {
            let Some(text) = content else {
                return write_content(b"", token, out);
            };
            write_content(text, token, out)
        }
        Reply::Refused(refusal) => write_short(refusal.code(), refusal.text(), token, out),
        Reply::OutOfMemory => write_short(Code::INTERNAL_SERVER_ERROR, b"", token, out),
    }
}
