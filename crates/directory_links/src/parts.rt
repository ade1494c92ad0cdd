//! Functions that read the parts of a text in link format, from left to right.

ghost use Rattle.std.specs.Prelude.{◌≡◌, ◌+◌, ◌<◌, ◌≤◌, length, IfOk, false};
ghost use Rattle.directory_links.specs.Prelude.{Gives, name_at, token_at, quoted_length, quoted_at, given_at};
ghost use Rattle.directory_links.specs.Prelude.{extended_at};
ghost use Rattle.directory_links.specs.Prelude.{value_at, attribute_at, target_at, next_link_at, value_of};
ghost use Rattle.directory_links.specs.Prelude.{attribute_of};
ghost use Rattle.directory_links.specs.Prelude.{after_target, lefts};
ghost use Rattle.std.specs.Prelude.{option_map};

use crate::attribute::{AttributeRef, ValueRef};
use crate::characters::{is_of_quoted, name_length, target_length, token_length};
use crate::fault::SyntaxFault;

/// Reads a name.
#[tactic(auto, unfolding(crate::specs::Reading::name_at))]
fn read_name(text: &[u8]) -> Result<(&[u8], &[u8]), SyntaxFault>
    ensures { Gives (λ x. (x.0.now, x.1.now)) result (name_at text.now) }
{
    let count = name_length(text);
    if count == 0 {
        return Err(SyntaxFault { left: text.len() });
    }
    Ok(text.split_at(count))
}

/// Reads a token.
#[tactic(auto, unfolding(crate::specs::Reading::token_at))]
fn read_token(text: &[u8]) -> Result<(&[u8], &[u8]), SyntaxFault>
    ensures { Gives (λ x. (x.0.now, x.1.now)) result (token_at text.now) }
{
    let count = token_length(text);
    if count == 0 {
        return Err(SyntaxFault { left: text.len() });
    }
    Ok(text.split_at(count))
}

/// Returns the number of bytes before the quote that ends a quoted string.
#[tactic(auto, using(crate::proofs::QuotedLemmas::quoted_steps))]
fn length_in_quotes(text: &[u8]) -> Result<usize, SyntaxFault>
    ensures value { lefts result ≡ quoted_length false text.now }
    ensures within { IfOk result (λ n. n < length text.now) }
{
    let mut escaped = false;
    for (i, byte) in text.iter().enumerate() {
        if !is_of_quoted(*byte) {
            return Err(SyntaxFault {
                left: text.len() - i,
            });
        }
        if escaped {
            escaped = false;
        } else if *byte == b'"' {
            return Ok(i);
        } else {
            escaped = *byte == b'\\';
        }
    }
    Err(SyntaxFault { left: 0 })
}

/// Reads a quoted string after its first quote.
#[tactic(auto, unfolding(crate::specs::Reading::quoted_at))]
fn read_quoted(text: &[u8]) -> Result<(ValueRef<'_>, &[u8]), SyntaxFault>
    ensures { Gives (λ x. (value_of x.0, x.1.now)) result (quoted_at text.now) }
{
    let count = length_in_quotes(text)?;
    Ok((ValueRef::Quoted(&text[..count]), &text[count + 1..]))
}

/// Reads the value after `=`.
#[tactic(auto, unfolding(crate::specs::Reading::given_at))]
fn read_given(text: &[u8]) -> Result<(ValueRef<'_>, &[u8]), SyntaxFault>
    ensures { Gives (λ x. (value_of x.0, x.1.now)) result (given_at text.now) }
{
    let Some((first, after)) = text.split_first() else {
        return Err(SyntaxFault { left: 0 });
    };
    if *first == b'"' {
        return read_quoted(after);
    }
    let (token, rest) = read_token(text)?;
    Ok((ValueRef::Token(token), rest))
}

/// Reads the value after `*`.
#[tactic(auto, unfolding(crate::specs::Reading::extended_at))]
fn read_extended(text: &[u8]) -> Result<(ValueRef<'_>, &[u8]), SyntaxFault>
    ensures { Gives (λ x. (value_of x.0, x.1.now)) result (extended_at text.now) }
{
    let Some((first, after)) = text.split_first() else {
        return Err(SyntaxFault { left: 0 });
    };
    if *first != b'=' {
        return Err(SyntaxFault { left: text.len() });
    }
    let (token, rest) = read_token(after)?;
    Ok((ValueRef::Extended(token), rest))
}

/// Reads the value after a name.
#[tactic(auto, unfolding(crate::specs::Reading::value_at))]
fn read_value(text: &[u8]) -> Result<(ValueRef<'_>, &[u8]), SyntaxFault>
    ensures { Gives (λ x. (value_of x.0, x.1.now)) result (value_at text.now) }
{
    let Some((first, after)) = text.split_first() else {
        return Ok((ValueRef::Absent, text));
    };
    match *first {
        b'*' => read_extended(after),
        b'=' => read_given(after),
        _ => Ok((ValueRef::Absent, text)),
    }
}

/// Reads an attribute.
#[tactic(auto, unfolding(crate::specs::Reading::attribute_at))]
pub(crate) fn read_attribute(text: &[u8]) -> Result<(AttributeRef<'_>, &[u8]), SyntaxFault>
    ensures { Gives (λ x. (attribute_of x.0, x.1.now)) result (attribute_at text.now) }
{
    let (name, rest) = read_name(text)?;
    let (value, rest) = read_value(rest)?;
    Ok((AttributeRef { name, value }, rest))
}

/// Reads the `>` that ends a target.
#[tactic(auto, unfolding(crate::specs::Reading::after_target))]
fn read_end_of_target(text: &[u8]) -> Result<&[u8], SyntaxFault>
    ensures { Gives (λ x. x.now) result (after_target text.now) }
{
    let Some((first, after)) = text.split_first() else {
        return Err(SyntaxFault { left: 0 });
    };
    if *first != b'>' {
        return Err(SyntaxFault { left: text.len() });
    }
    Ok(after)
}

/// Reads a target between `<` and `>`.
#[tactic(auto, unfolding(crate::specs::Reading::target_at))]
pub(crate) fn read_target(text: &[u8]) -> Result<(&[u8], &[u8]), SyntaxFault>
    ensures { Gives (λ x. (x.0.now, x.1.now)) result (target_at text.now) }
{
    let Some((first, after)) = text.split_first() else {
        return Err(SyntaxFault { left: 0 });
    };
    if *first != b'<' {
        return Err(SyntaxFault { left: text.len() });
    }
    let (target, rest) = after.split_at(target_length(after));
    Ok((target, read_end_of_target(rest)?))
}

/// Returns the bytes after the `,` between two links, or `None` at the end of the text.
#[tactic(auto, unfolding(crate::specs::Reading::next_link_at))]
pub(crate) fn read_separator(text: &[u8]) -> Result<Option<&[u8]>, SyntaxFault>
    ensures { Gives (λ x. option_map (λ s. s.now) x) result (next_link_at text.now) }
{
    let Some((first, after)) = text.split_first() else {
        return Ok(None);
    };
    if *first != b',' {
        return Err(SyntaxFault { left: text.len() });
    }
    Ok(Some(after))
}
