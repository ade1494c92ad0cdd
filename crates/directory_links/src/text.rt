//! Links and attributes that are kept as texts.

ghost use Rattle.std.specs.Prelude.{◌≡◌, ◌++◌, ◌∷◌, [], true, IfOk, OnOk};
ghost use Rattle.std.specs.List.{list_all};
ghost use Rattle.directory_links.specs.Prelude.{GivesAt, links_from, is_attribute, attribute_of, value_of, value_text};

use crate::attribute::{AttributeRef, ValueRef};
use crate::fault::LinkFault;
use crate::parser::{Attributes, Links, parse};
use std::alloc::{AllocError, Global};
use std::marker::Model;

/// Text in link format that was checked. Contracts see the list of its links.
#[derive(Drop)]
pub struct LinkText {
    bytes: Vec<u8>,
}

impl Model for LinkText {
    ghost use Rattle.std.specs.Prelude.{List, IsOk};
    ghost use Rattle.directory_links.specs.Links.{Link};
    ghost use Rattle.directory_links.specs.Reading.{links_of, links_read};

    ghost Value = { List Link };

    ghost view = { λ l. links_read (links_of l.bytes.items) };

    ghost invariant = { λ l. IsOk (links_of l.bytes.items) };
}

impl LinkText {
    /// Checks a text in link format and keeps it.
    ///
    /// # Errors
    ///
    /// - `LinkFault`: the text is not in link format, as for `parse`.
    #[tactic(auto, using(crate::proofs::ParseLaws::from_ok))]
    pub fn check(bytes: Vec<u8>) -> Result<LinkText, LinkFault>
        ensures { GivesAt result (links_from bytes.items) }
    {
        parse(&bytes)?;
        Ok(LinkText { bytes })
    }

    /// Returns an iterator over the links.
    pub fn links(&self) -> Links<'_>
        ensures { result ≡ self.now }
    {
        Links::of_text(&self.bytes)
    }
}

/// Appends the text of a value after the name of its attribute.
fn push_value(text: &mut Vec<u8>, value: ValueRef) -> Result<(), AllocError>
    ensures { OnOk result (text.new.items ≡ text.old.items ++ value_text (value_of value.entry)) }
{
    match value {
        ValueRef::Absent => Ok(()),
        ValueRef::Extended(word) => push_two(text, b"*=", word),
        ValueRef::Token(word) => push_two(text, b"=", word),
        ValueRef::Quoted(words) => {
            push_two(text, b"=\"", words)?;
            text.extend_from_slice(b"\"")
        }
    }
}

/// Appends two texts.
#[tactic(auto, using(std::proofs::Common::append_assoc))]
fn push_two(text: &mut Vec<u8>, first: &[u8], second: &[u8]) -> Result<(), AllocError>
    ensures { OnOk result (text.new.items ≡ text.old.items ++ (first.now ++ second.now)) }
{
    text.extend_from_slice(first)?;
    text.extend_from_slice(second)
}

/// Attributes that are kept as a text, in which each is after `;`. Contracts see the list of the attributes.
#[derive(Drop)]
pub struct AttributeText {
    bytes: Vec<u8>,
}

impl Model for AttributeText {
    ghost use Rattle.std.specs.Prelude.{◌≡◌, List, [], Ok};
    ghost use Rattle.directory_links.specs.Links.{Attribute};
    ghost use Rattle.directory_links.specs.Reading.{attributes_at, attributes_read};

    ghost Value = { List Attribute };

    ghost view = { λ a. attributes_read (attributes_at a.bytes.items) };

    ghost invariant = { λ a. attributes_at a.bytes.items ≡ Ok (attributes_read (attributes_at a.bytes.items), []) };
}

impl AttributeText {
    /// Creates a text of no attributes, and allocates nothing.
    #[tactic(auto, using(crate::proofs::AttributeSteps::attributes_is))]
    pub fn new(alloc: Global) -> AttributeText
        ensures { result ≡ [] }
    {
        AttributeText {
            bytes: Vec::new(alloc),
        }
    }

    /// Adds an attribute after the others.
    ///
    /// # Errors
    ///
    /// - `AllocError` if allocation fails.
    ///
    /// # Preconditions
    ///
    /// - A link can have the attribute (RFC 6690 section 2).
    #[tactic(auto, using(crate::proofs::AttributeTextLaws::appended))]
    pub fn with(self, attribute: &AttributeRef) -> Result<AttributeText, AllocError>
        requires { is_attribute (attribute_of attribute.now) ≡ true }
        ensures { IfOk result (λ t. t ≡ self ++ attribute_of attribute.now ∷ []) }
    {
        let mut bytes = self.bytes;
        push_two(&mut bytes, b";", attribute.name)?;
        push_value(&mut bytes, attribute.value)?;
        Ok(AttributeText { bytes })
    }

    /// Returns an iterator over the attributes.
    #[tactic(auto, using(crate::proofs::AttributeTextLaws::each_attribute))]
    pub fn attributes(&self) -> Attributes<'_>
        ensures all { result ≡ self.now }
        ensures each { list_all is_attribute result ≡ true }
    {
        Attributes::of_text(&self.bytes)
    }
}
