//! The CoRE Link Format, `application/link-format` (RFC 6690).
//!
//! - `parse` reads a text into `Links`, an iterator over its links, which borrow the text.
//! - `LinkRef` is a link: its target and an iterator over its attributes.
//! - `AttributeRef` is an attribute, with its `ValueRef`.
//! - `LinkText` keeps a text that was checked, and `AttributeText` keeps attributes as a text.
//! - `is_parmname` and `is_same_name` judge names of attributes.
//!
//! Only `AttributeText::with` allocates. The contracts name the definitions of `specs/Links.antt` (which text writes a
//! list of links) and `specs/Reading.antt` (what a text is read as).
//!
//! This crate does not check the structure of a URI, nor the form of single attributes such as `sz`. Continue with
//! `parser.rt`, then `parts.rt`.
#![tactic(auto)]

mod attribute;
mod characters;
mod fault;
mod parser;
mod parts;
mod text;

pub use attribute::{AttributeRef, ValueRef};
pub use characters::{is_parmname, is_same_name, is_target_char};
pub use fault::LinkFault;
pub use parser::{Attributes, LinkRef, Links, parse};
pub use text::{AttributeText, LinkText};
