//! `describe`, which appends a message to a line.
//!
//! Each function appends one part. Its contract names the text of the part, and `appended` cuts the text if it does not
//! fit.
#![tactic(auto, using(crate::proofs::LineLaws::pieces))]

ghost use Rattle.std.specs.Prelude.{◌≡◌, ◌<◌, true, length, take, option_map};
ghost use Rattle.std.specs.List.{flat_map};
ghost use Rattle.std.specs.Option.{ForSome};
ghost use Rattle.coap_wire.specs.Views.{coap_option};
ghost use Rattle.coap_print.specs.Texts.{is_text as is_printable_text, quoted};
ghost use Rattle.coap_print.specs.Lines.{appended};
ghost use Rattle.coap_print.specs.Names.{option_row as row_value};
ghost use Rattle.coap_print.specs.Descriptions as spec;
ghost use Rattle.coap_print.specs.declared.line.TheConstants.{LINE_LENGTH};

use crate::line::Line;
use crate::names::{code_name, content_format_name, option_row};
use crate::tables::{Format, OptionRow};
use coap_wire::{Code, MessageRef, OptionRef, Options, uint_value};

/// Maximum number of bytes of a payload that a description shows.
const MOST_SHOWN: usize = 64;

/// Appends a message to a line: its code, its token, its options and its payload.
///
/// - The code has its name if it is registered, as in `2.05 Content`.
/// - The token is in hexadecimal, as in `token 2a`.
/// - An option has its name if it is known, otherwise its number, as in `option 65001=2a`. Its value is text in
///   quotation marks, a number, a block such as `3/1/1024`, or hexadecimal.
/// - The payload is text in quotation marks if all its bytes are printable, otherwise hexadecimal. Of a payload of more
///   than 64 bytes, the length and the first 64 bytes are written.
///
/// Text that does not fit into the line is cut, and the line ends with `...`.
#[tactic(auto, using(crate::proofs::LineLaws::pieces), unfolding(crate::specs::Descriptions::message_text))]
pub fn describe(line: &mut Line, message: &MessageRef)
    ensures text { line.new ≡ appended LINE_LENGTH line.old (spec.message_text message.now) }
    ensures kept { take (length line.old) line.new ≡ line.old }
{
    append_code(line, message.code());
    append_token(line, message.token().bytes());
    append_options(line, message.code(), message.options());
    append_payload(line, message.payload());
}

/// Appends a representation to a line: its Content-Format, if it has one, and its bytes, as `describe`
/// appends a payload.
pub fn describe_representation(line: &mut Line, format: Option<u16>, bytes: &[u8])
    ensures { line.new ≡ appended LINE_LENGTH line.old (spec.representation_text format bytes.now) }
{
    append_format(line, format);
    append_payload(line, bytes);
}

/// Appends a Content-Format with its name, if there is one.
fn append_format(line: &mut Line, format: Option<u16>)
    ensures { line.new ≡ appended LINE_LENGTH line.old (spec.format_text format) }
{
    let Some(number) = format else {
        return;
    };
    line.text(" Content-Format=");
    line.number(u64::from(number));
    append_remark(line, content_format_name(u32::from(number)));
}

/// Appends a code with its name.
#[tactic(auto, using(crate::proofs::LineLaws::pieces), unfolding(crate::specs::Descriptions::code_text))]
fn append_code(line: &mut Line, code: Code)
    ensures { line.new ≡ appended LINE_LENGTH line.old (spec.code_text code) }
{
    line.number(u64::from(code.class()));
    line.text(".");
    line.number(u64::from(code.detail() / 10));
    line.number(u64::from(code.detail() % 10));
    append_title(line, code_name(code));
}

/// Appends a space and a name, if there is a name.
fn append_title(line: &mut Line, name: Option<&'static str>)
    requires { ForSome name (λ name. is_printable_text name.now ≡ true) }
    ensures { line.new ≡ appended LINE_LENGTH line.old (spec.title_text (option_map (λ name. name.now) name.entry)) }
{
    let Some(name) = name else {
        return;
    };
    line.text(" ");
    line.text(name);
}

/// Appends a token in hexadecimal, if it is not empty.
#[tactic(auto, using(crate::proofs::LineLaws::pieces), unfolding(crate::specs::Descriptions::token_text))]
fn append_token(line: &mut Line, token: &[u8])
    ensures { line.new ≡ appended LINE_LENGTH line.old (spec.token_text token.now) }
{
    if token.is_empty() {
        return;
    }
    line.text(" token ");
    line.hex(token);
}

/// Appends the options of a message with this code.
fn append_options(line: &mut Line, code: Code, options: Options)
    ensures { line.new ≡ appended LINE_LENGTH line.old (flat_map (spec.option_text code) options.entry) }
{
    for option in options {
        append_option(line, code, &option);
    }
}

/// Appends a space and an option of a message with this code.
#[tactic(auto, using(crate::proofs::LineLaws::pieces), unfolding(crate::specs::Descriptions::option_text))]
fn append_option(line: &mut Line, code: Code, option: &OptionRef)
    ensures { line.new ≡ appended LINE_LENGTH line.old (spec.option_text code (coap_option option.now)) }
{
    line.text(" ");
    append_named(line, option_row(code, option.number), option);
}

/// Appends an option with the name and the format in this row, or with its number if there is no row.
fn append_named(line: &mut Line, row: Option<OptionRow>, option: &OptionRef)
    requires { ForSome row (λ row. is_printable_text row.1.now ≡ true) }
    ensures { line.new ≡ appended LINE_LENGTH line.old (spec.named_text (option_map row_value row.entry)
        (coap_option option.now)) }
{
    match row {
        Some((_, name, format)) => {
            line.text(name);
            append_value(line, format, option.value);
        }
        None => {
            line.text("option ");
            line.number(u64::from(option.number));
            append_opaque(line, option.value);
        }
    }
}

/// Appends the value of an option, in its format.
fn append_value(line: &mut Line, format: Format, value: &[u8])
    ensures { line.new ≡ appended LINE_LENGTH line.old (spec.value_text format value.now) }
{
    match format {
        Format::Text => {
            line.text("=");
            append_quoted(line, value);
        }
        Format::Uint => append_uint(line, number_in(value), value),
        Format::ContentFormat => append_content_format(line, number_in(value), value),
        Format::Block => append_block(line, number_in(value), value),
        Format::Opaque => append_opaque(line, value),
    }
}

/// Returns the number that a value of format uint encodes, or `None` if it has more than 4 bytes.
#[tactic(auto, unfolding(crate::specs::Descriptions::uint_in))]
fn number_in(value: &[u8]) -> Option<u32>
    ensures { result ≡ spec.uint_in value.now }
{
    uint_value(value)
}

/// Appends bytes as escaped text in quotation marks.
fn append_quoted(line: &mut Line, bytes: &[u8])
    ensures { line.new ≡ appended LINE_LENGTH line.old (quoted bytes.now) }
{
    line.text("\"");
    line.escaped(bytes);
    line.text("\"");
}

/// Appends bytes in hexadecimal, unless there are none.
#[tactic(auto, using(crate::proofs::LineLaws::pieces), unfolding(crate::specs::Descriptions::opaque_text))]
fn append_opaque(line: &mut Line, value: &[u8])
    ensures { line.new ≡ appended LINE_LENGTH line.old (spec.opaque_text value.now) }
{
    if value.is_empty() {
        return;
    }
    line.text("=");
    line.hex(value);
}

/// Appends a number, or the bytes of a value that is no number.
fn append_uint(line: &mut Line, number: Option<u32>, value: &[u8])
    ensures { line.new ≡ appended LINE_LENGTH line.old (spec.uint_text number value.now) }
{
    let Some(number) = number else {
        return append_malformed(line, value);
    };
    line.text("=");
    line.number(u64::from(number));
}

/// Appends the bytes of a value that is not of its format.
fn append_malformed(line: &mut Line, value: &[u8])
    ensures { line.new ≡ appended LINE_LENGTH line.old (spec.uint_text None value.now) }
{
    line.text("=0x");
    line.hex(value);
}

/// Appends a Content-Format and its name, or the bytes of a value that is no number.
fn append_content_format(line: &mut Line, number: Option<u32>, value: &[u8])
    ensures { line.new ≡ appended LINE_LENGTH line.old (spec.content_format_text number value.now) }
{
    let Some(number) = number else {
        return append_malformed(line, value);
    };
    line.text("=");
    line.number(u64::from(number));
    append_remark(line, content_format_name(number));
}

/// Appends a name in parentheses, if there is a name.
fn append_remark(line: &mut Line, name: Option<&'static str>)
    requires { ForSome name (λ name. is_printable_text name.now ≡ true) }
    ensures { line.new ≡ appended LINE_LENGTH line.old (spec.remark (option_map (λ name. name.now) name.entry)) }
{
    let Some(name) = name else {
        return;
    };
    line.text(" (");
    line.text(name);
    line.text(")");
}

/// Appends the number of a block, its more flag and its size, or the bytes of a value that is no number.
fn append_block(line: &mut Line, number: Option<u32>, value: &[u8])
    ensures { line.new ≡ appended LINE_LENGTH line.old (spec.block_text number value.now) }
{
    let Some(number) = number else {
        return append_malformed(line, value);
    };
    line.text("=");
    line.number(u64::from(number / 16));
    line.text("/");
    line.number(u64::from(number / 8 % 2));
    line.text("/");
    append_block_size(line, number % 8);
}

/// Appends the size of a block with an exponent below 8, or `BERT` for the exponent 7 (RFC 8323 section 6).
#[tactic(auto, using(crate::proofs::LineLaws::pieces), unfolding(crate::specs::Descriptions::block_size))]
fn append_block_size(line: &mut Line, exponent: u32)
    requires { exponent < 8 }
    ensures { line.new ≡ appended LINE_LENGTH line.old (spec.block_size exponent) }
{
    if exponent == 7 {
        line.text("BERT");
    } else {
        line.number(1 << (exponent + 4));
    }
}

/// Appends a payload, if it is not empty.
#[tactic(auto, using(crate::proofs::LineLaws::pieces), unfolding(crate::specs::Descriptions::payload_text))]
fn append_payload(line: &mut Line, payload: &[u8])
    ensures { line.new ≡ appended LINE_LENGTH line.old (spec.payload_text payload.now) }
{
    if payload.is_empty() {
        return;
    }
    line.text(" payload ");
    append_size(line, payload.len() as u64);
    append_shown(line, is_text(payload), first_bytes(payload));
}

/// Appends the length of a payload that is not shown whole.
fn append_size(line: &mut Line, size: u64)
    ensures { line.new ≡ appended LINE_LENGTH line.old (spec.size_text size) }
{
    if size <= MOST_SHOWN as u64 {
        return;
    }
    line.number(size);
    line.text(" bytes ");
}

/// Returns the bytes of a payload that are shown.
fn first_bytes(payload: &[u8]) -> &[u8]
    ensures { result.now ≡ take spec.most_shown payload.now }
{
    if payload.len() <= MOST_SHOWN {
        payload
    } else {
        &payload[..MOST_SHOWN]
    }
}

/// Appends bytes as quoted text, or in hexadecimal.
fn append_shown(line: &mut Line, is_text: bool, bytes: &[u8])
    ensures { line.new ≡ appended LINE_LENGTH line.old (spec.shown_text is_text bytes.now) }
{
    if is_text {
        append_quoted(line, bytes);
    } else {
        line.hex(bytes);
    }
}

/// Returns `true` if each byte is printable ASCII.
fn is_text(bytes: &[u8]) -> bool
    ensures { result ≡ is_printable_text bytes.now }
{
    bytes.iter().all(|byte| b' ' <= *byte && *byte <= b'~')
}
