//! The texts of the links in the listing.

ghost use Rattle.std.specs.Prelude.{◌≡◌, ◌≤◌, ◌∷◌, ◌++◌, [], Some, length, IfOk, OnOk, flat_map, string_bytes, codes};
ghost use Rattle.coap_store.specs.Prelude.{attribute_bytes, first_bytes, link_bytes, entry_bytes, end_bytes, slash};
ghost use Rattle.coap_store.specs.Prelude.{encoded_byte, path_bytes, format_bytes};

use arrayvec::ArrayString;
use coap_path::{ApplicationEntry, Applications, PathKey};
use itoa::Buffer;
use percent_encoding::{AsciiSet, NON_ALPHANUMERIC, ascii_set, percent_encode};
use std::alloc::{AllocError, Global};

/// Maximum number of bytes after the path in the text of a resource, as in `;ct=65535;obs`.
pub const MAX_END: usize = 13;

/// Text of the built-in resources in the listing (RFC 6690 section 2).
pub const BUILT_IN_TEXT: &[u8] = b"</>;ct=0,</time>;ct=0;obs,</async>;ct=0";

/// Bytes that are escaped in a segment of a path: all but letters, digits, `-`, `.`, `_` and `~` (RFC 3986 section
/// 2.3).
pub const ESCAPED: AsciiSet = ascii_set!(
    NON_ALPHANUMERIC
        .remove(b'-')
        .remove(b'.')
        .remove(b'_')
        .remove(b'~')
);

/// Appends a slash and the escaped segment (RFC 3986 section 2.1).
#[tactic(auto, using(crate::proofs::EscapeLemmas::segment_is))]
fn push_segment(text: &mut String, segment: &[u8]) -> Result<(), AllocError>
    ensures { OnOk result (string_bytes text.new ≡ string_bytes text.old ++
        (slash ∷ flat_map encoded_byte segment.now)) }
{
    text.push_str("/")?;
    percent_encode(segment, ESCAPED).append_to(text)
}

/// Appends each segment of the path.
#[tactic(auto, unfolding(crate::specs::Links::path_bytes))]
fn push_path(text: &mut String, path: &PathKey) -> Result<(), AllocError>
    ensures { OnOk result (string_bytes text.new ≡ string_bytes text.old ++ path_bytes path.now) }
{
    for segment in path.segments() {
        push_segment(text, segment)?;
    }
    Ok(())
}

/// Writes the Content-Format, if there is one (RFC 7252 section 7.2.1).
fn push_format(text: &mut ArrayString<MAX_END>, format: Option<u16>)
    requires { text.old.bytes ≡ [] }
    ensures value { text.new.bytes ≡ format_bytes format }
    ensures short { length text.new.bytes ≤ 9 }
{
    let Some(format) = format else {
        return;
    };
    let mut digits = Buffer::new();
    text.push_str(";ct=");
    text.push_str(digits.format(format));
}

/// Returns the end of the text of a resource in the listing, which alone depends on its Content-Format.
pub fn entry_end(format: Option<u16>) -> ArrayString<MAX_END>
    ensures { result.bytes ≡ end_bytes format }
{
    let mut end = ArrayString::new();
    push_format(&mut end, format);
    end.push_str(";obs");
    end
}

/// Returns the text of a resource in the listing.
#[tactic(auto, using(std::proofs::Common::append_assoc), unfolding(crate::specs::Links::entry_bytes))]
pub fn entry_text(alloc: Global, path: &PathKey, format: Option<u16>) -> Result<String, AllocError>
    ensures { IfOk result (λ text. string_bytes text ≡ entry_bytes path.now format) }
{
    let mut text = target_text(alloc, path)?;
    text.push_str(entry_end(format).as_str())?;
    Ok(text)
}

/// Returns the text of a link in the listing before its attributes.
#[tactic(auto, using(std::proofs::Common::append_assoc))]
fn target_text(alloc: Global, path: &PathKey) -> Result<String, AllocError>
    ensures { IfOk result (λ text. string_bytes text ≡ codes ",<" ++ (path_bytes path.now ++ codes ">")) }
{
    let mut text = String::new(alloc);
    text.push_str(",<")?;
    push_path(&mut text, path)?;
    text.push_str(">")?;
    Ok(text)
}

/// Returns the text of the built-in resources and of the application, with which the listing begins.
#[tactic(auto, using(crate::proofs::LinkLemmas::first_text_steps), unfolding(crate::specs::Links::first_bytes))]
pub fn first_text(alloc: Global, applications: &Applications) -> Result<Vec<u8>, AllocError>
    ensures text { IfOk result (λ text. text.items ≡ first_bytes (Some applications.now)) }
    ensures short { IfOk result (λ text. length text.items ≤ 16423) }
{
    let mut text = Vec::from_slice(alloc, BUILT_IN_TEXT)?;
    let entries = applications.entries();
    for entry in entries {
        push_link(alloc, &mut text, entry)?;
    }
    Ok(text)
}

/// Appends the text of an entry of the application.
#[tactic(auto, using(crate::proofs::LinkLemmas::push_link_steps))]
fn push_link(alloc: Global, text: &mut Vec<u8>, entry: &ApplicationEntry) -> Result<(), AllocError>
    ensures { OnOk result (text.new.items ≡ text.old.items ++ link_bytes entry.now) }
{
    let target = target_text(alloc, entry.prefix())?;
    text.extend_from_slice(target.as_bytes())?;
    push_attributes(text, entry.attributes())
}

/// Appends the attributes of a link, if there are any (RFC 6690 section 2).
fn push_attributes(text: &mut Vec<u8>, attributes: &[u8]) -> Result<(), AllocError>
    ensures { OnOk result (text.new.items ≡ text.old.items ++ attribute_bytes attributes.now) }
{
    if attributes.is_empty() {
        return Ok(());
    }
    text.extend_from_slice(b";")?;
    text.extend_from_slice(attributes)
}
