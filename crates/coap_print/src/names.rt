//! Look-up of names in the tables. Each name is printable.

ghost use Rattle.std.specs.Prelude.{◌≡◌, true, IfSome, map, option_map};
ghost use Rattle.coap_print.specs.Texts.{is_text};
ghost use Rattle.coap_print.specs.Names as spec;

use crate::tables::{
    ABORT_OPTIONS, CODE_NAMES, CONTENT_FORMATS, CSM_OPTIONS, NameRow, OPTIONS, OptionRow,
    PING_OPTIONS, RELEASE_OPTIONS,
};
use coap_wire::Code;

/// Returns the name of a code, if it has one.
#[tactic(auto, unfolding(crate::specs::Names::code_name))]
pub(crate) fn code_name(code: Code) -> Option<&'static str>
    ensures name { option_map (λ name. name.now) result ≡ spec.code_name code }
    ensures text { IfSome result (λ name. is_text name.now ≡ true) }
{
    find_name(&CODE_NAMES, u32::from(code.byte()))
}

/// Returns the name of a Content-Format, if it has one.
#[tactic(auto, unfolding(crate::specs::Names::content_format_name))]
pub(crate) fn content_format_name(number: u32) -> Option<&'static str>
    ensures name { option_map (λ name. name.now) result ≡ spec.content_format_name number }
    ensures text { IfSome result (λ name. is_text name.now ≡ true) }
{
    find_name(&CONTENT_FORMATS, number)
}

/// Returns the name of an option of requests and responses, if it is known. Signalling Messages have options of their
/// own, which this function does not name.
pub fn option_name(number: u16) -> Option<&'static str>
    ensures name { option_map (λ name. name.now) result ≡ spec.option_name number }
    ensures text { IfSome result (λ name. is_text name.now ≡ true) }
{
    match find_option(&OPTIONS, number) {
        Some(row) => Some(row.1),
        None => None,
    }
}

/// Returns the name and the format of an option in a message with this code, if the option is known.
#[tactic(auto, unfolding(crate::specs::Names::known_option))]
pub(crate) fn option_row(code: Code, number: u16) -> Option<OptionRow>
    ensures row { option_map spec.option_row result ≡ spec.known_option code number }
    ensures text { IfSome result (λ row. is_text row.1.now ≡ true) }
{
    if code.class() == 7 {
        signalling_row(code, number)
    } else {
        find_option(&OPTIONS, number)
    }
}

/// Returns the name and the format of an option in a Signalling Message with this code, if the option is known.
#[tactic(auto, unfolding(crate::specs::Names::signalling_option))]
fn signalling_row(code: Code, number: u16) -> Option<OptionRow>
    ensures row { option_map spec.option_row result ≡ spec.signalling_option code number }
    ensures text { IfSome result (λ row. is_text row.1.now ≡ true) }
{
    if code == Code::CSM {
        find_option(&CSM_OPTIONS, number)
    } else if code == Code::PING || code == Code::PONG {
        find_option(&PING_OPTIONS, number)
    } else if code == Code::RELEASE {
        find_option(&RELEASE_OPTIONS, number)
    } else if code == Code::ABORT {
        find_option(&ABORT_OPTIONS, number)
    } else {
        None
    }
}

/// Returns the name of a number in a table, if the table has the number.
#[tactic(auto, unfolding(crate::specs::Names::name_in))]
fn find_name(mut table: &[NameRow], number: u32) -> Option<&'static str>
    requires { spec.names_are_text (map spec.name_row table.now) ≡ true }
    ensures name { option_map (λ name. name.now) result ≡ spec.name_in (map spec.name_row table.entry.now) number }
    ensures text { IfSome result (λ name. is_text name.now ≡ true) }
{
    while let [row, rest @ ..] = table {
        if u32::from(row.0) == number {
            return Some(row.1);
        }
        table = rest;
    }
    None
}

/// Returns the row of an option in a table, if the table has its number.
#[tactic(auto, unfolding(crate::specs::Names::option_in))]
fn find_option(mut table: &[OptionRow], number: u16) -> Option<OptionRow>
    requires { spec.options_are_text (map spec.option_row table.now) ≡ true }
    ensures row { option_map spec.option_row result ≡ spec.option_in (map spec.option_row table.entry.now) number }
    ensures text { IfSome result (λ row. is_text row.1.now ≡ true) }
{
    while let [row, rest @ ..] = table {
        if row.0 == number {
            return Some(*row);
        }
        table = rest;
    }
    None
}
