//! Numbers and bytes that a text writes as words, and the splitting of a text at a separator.
//!
//! - `number_in` reads decimal digits, and `bytes_in` reads pairs of hexadecimal digits.
//! - `decimal_digits` writes a number, and `Decimal` keeps a number with its text.
//! - `split_once` splits bytes at the first separator. `is_hyphen` recognises the word `-`.
//!
//! A word is a slice of bytes, so it need not be UTF-8. The contracts name the definitions of `specs/Words.antt`.
//!
//! This crate contains no CoAP, and it defines neither the lines of scripts nor the arguments of programs. The first
//! are in `coap_script/src/scripts.rt`, the second in `coap_command_line/src/arguments.rt`; both read their words with
//! these functions. Continue with `words.rt`.
#![tactic(auto)]

mod decimal;
mod words;

pub use decimal::{Decimal, decimal_digits};
pub use words::{bytes_in, is_hyphen, number_in, split_once};
