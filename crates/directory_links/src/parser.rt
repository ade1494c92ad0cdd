//! `parse`, and the links and attributes that it gives.

ghost use Rattle.std.specs.Prelude.{◌≡◌, List, IfOk, IsOk, Ok};
ghost use Rattle.directory_links.specs.Prelude.{attribute_of, attributes_at, attributes_read, YieldsFirstBy};
ghost use Rattle.directory_links.specs.Prelude.{item_count};
ghost use Rattle.directory_links.specs.Prelude.{GivesRest, Gives, GivesLinks, GivesAt, YieldsFirst};
ghost use Rattle.directory_links.specs.Prelude.{link_at, links_of, links_from, links_read, Link, Writes};

use crate::attribute::AttributeRef;
use crate::fault::{LinkFault, SyntaxFault};
use crate::parts::{read_attribute, read_separator, read_target};
use std::marker::Model;

/// Iterator over the attributes of a link. Contracts see the list of the attributes that are left.
#[derive(Drop)]
pub struct Attributes<'a> {
    rest: &'a [u8],
}

impl<'a> Model for Attributes<'a> {
    ghost use Rattle.std.specs.Prelude.{List, IsOk};
    ghost use Rattle.directory_links.specs.Links.{Attribute};
    ghost use Rattle.directory_links.specs.Reading.{attributes_at, attributes_read};

    ghost Value = { List Attribute };

    ghost view = { λ a. attributes_read (attributes_at a.rest.now) };

    ghost invariant = { λ a. IsOk (attributes_at a.rest.now) };
}

impl<'a> Attributes<'a> {
    /// Returns an iterator over the attributes at the front of a text, which must be well-formed.
    pub(crate) fn of_text(text: &'a [u8]) -> Attributes<'a>
        requires { IsOk (attributes_at text.now) }
        ensures { result ≡ attributes_read (attributes_at text.now) }
    {
        Attributes { rest: text }
    }
}

impl<'a> Iterator for Attributes<'a> {
    type Item = AttributeRef<'a>;

    ghost next_gives = { YieldsFirstBy attribute_of (λ rest. rest) };

    ghost remaining = { item_count (λ rest. rest) };

    #[tactic(auto, using(crate::proofs::AttributeSteps::attributes_is))]
    fn next(&mut self) -> Option<AttributeRef<'a>> {
        let (first, after) = self.rest.split_first()?;
        if *first != b';' {
            return None;
        }
        let Ok((attribute, rest)) = read_attribute(after) else {
            unreachable!()
        };
        self.rest = rest;
        Some(attribute)
    }
}

/// Returns the bytes after the attributes at the front.
#[tactic(auto, using(crate::proofs::AttributeSteps::attributes_is))]
pub(crate) fn after_attributes(text: &[u8]) -> Result<&[u8], SyntaxFault>
    ensures { GivesRest result (attributes_at text.now) }
{
    let mut rest = text;
    while let Some((first, after)) = rest.split_first() {
        if *first != b';' {
            return Ok(rest);
        }
        let (_attribute, later) = read_attribute(after)?;
        rest = later;
    }
    Ok(rest)
}

/// Link, borrowed from the text. Contracts see a `Link`: its target and its attributes.
#[derive(Drop)]
pub struct LinkRef<'a> {
    target: &'a [u8],
    /// Text from the attributes on.
    attributes: &'a [u8],
}

impl<'a> Model for LinkRef<'a> {
    ghost use Rattle.std.specs.Prelude.{IsOk};
    ghost use Rattle.directory_links.specs.Links.{Link};
    ghost use Rattle.directory_links.specs.Reading.{attributes_at, attributes_read};

    ghost Value = { Link };

    ghost view = { λ l.
        record { target = l.target.now; attributes = attributes_read (attributes_at l.attributes.now) } };

    ghost invariant = { λ l. IsOk (attributes_at l.attributes.now) };
}

impl<'a> LinkRef<'a> {
    /// Returns the target, without `<` and `>`.
    pub fn target(&self) -> &'a [u8]
        ensures { result.now ≡ self.now.target }
    {
        self.target
    }

    /// Returns an iterator over the attributes, in order.
    pub fn attributes(&self) -> Attributes<'a>
        ensures { result ≡ self.now.attributes }
    {
        Attributes::of_text(self.attributes)
    }
}

/// Reads a link.
#[tactic(auto, unfolding(crate::specs::Reading::link_at))]
fn read_link(text: &[u8]) -> Result<(LinkRef<'_>, &[u8]), SyntaxFault>
    ensures { Gives (λ x. (x.0, x.1.now)) result (link_at text.now) }
{
    let (target, attributes) = read_target(text)?;
    let rest = after_attributes(attributes)?;
    Ok((LinkRef { target, attributes }, rest))
}

/// Iterator over the links of a text, in order. Contracts see the list of the links that are left.
#[derive(Drop)]
pub struct Links<'a> {
    rest: &'a [u8],
}

impl<'a> Model for Links<'a> {
    ghost use Rattle.std.specs.Prelude.{List, IsOk};
    ghost use Rattle.directory_links.specs.Links.{Link};
    ghost use Rattle.directory_links.specs.Reading.{links_of, links_read};

    ghost Value = { List Link };

    ghost view = { λ l. links_read (links_of l.rest.now) };

    ghost invariant = { λ l. IsOk (links_of l.rest.now) };
}

impl<'a> Links<'a> {
    /// Returns an iterator over the links of a text, which must be in link format.
    pub(crate) fn of_text(text: &'a [u8]) -> Links<'a>
        requires { IsOk (links_of text.now) }
        ensures { result ≡ links_read (links_of text.now) }
    {
        Links { rest: text }
    }
}

impl<'a> Iterator for Links<'a> {
    type Item = LinkRef<'a>;

    ghost next_gives = { YieldsFirst (λ rest. rest) };

    ghost remaining = { item_count (λ rest. rest) };

    #[tactic(auto, using(crate::proofs::LinkSteps::link_steps))]
    fn next(&mut self) -> Option<LinkRef<'a>> {
        if self.rest.is_empty() {
            return None;
        }
        let Ok((link, later)) = read_link(self.rest) else {
            unreachable!()
        };
        let Ok(next) = read_separator(later) else {
            unreachable!()
        };
        let Some(next) = next else {
            self.rest = &[];
            return Some(link);
        };
        self.rest = next;
        Some(link)
    }
}

/// Reads all links.
#[tactic(auto, using(crate::proofs::LinkSteps::link_steps))]
fn check_links(text: &[u8]) -> Result<(), SyntaxFault>
    ensures { GivesLinks result (links_of text.now) }
{
    if text.is_empty() {
        return Ok(());
    }
    let mut rest = text;
    loop {
        let (_link, later) = read_link(rest)?;
        let Some(next) = read_separator(later)? else {
            return Ok(());
        };
        rest = next;
    }
}

/// Returns the links that a text in link format writes (RFC 6690 section 2). An empty text writes none.
///
/// # Errors
///
/// - `LinkFault`: the text is not in link format. The error says where.
///
/// # Examples
///
/// ```
/// for link in directory_links::parse(b"</sensors/temp>;rt=\"temperature-c\";if=sensor")? {
///     assert!(&rt; link.target() == b"/sensors/temp".as_slice());
/// }
/// ```
#[tactic(auto, using(crate::proofs::ParseLaws::parsed), unfolding(crate::specs::Reading::links_from))]
pub fn parse(text: &[u8]) -> Result<Links<'_>, LinkFault>
    // The result are links if and only if the text writes these links.
    ensures found { IfOk result (λ links. Writes text.now links) }
    ensures only { (links : List Link) → Writes text.now links → result ≡ Ok links }
    // The result as a function of the bytes.
    ensures exact { GivesAt result (links_from text.now) }
{
    links_in(text)
}

/// Returns the links of a text.
#[tactic(auto, unfolding(crate::specs::Reading::links_from))]
fn links_in(text: &[u8]) -> Result<Links<'_>, LinkFault>
    ensures { GivesAt result (links_from text.now) }
{
    match check_links(text) {
        Ok(()) => Ok(Links::of_text(text)),
        Err(fault) => Err(LinkFault {
            offset: text.len().saturating_sub(fault.left),
        }),
    }
}
