//! Characters of a text in link format (RFC 6690 section 2).

ghost use Rattle.std.specs.Prelude.{◌≡◌, ◌≤◌, length};
ghost use Rattle.std.specs.List.{list_all, prefix_len};
ghost use Rattle.directory_links.specs.Prelude.{is_name_char, is_token_char};
ghost use Rattle.directory_links.specs.Prelude.{is_quoted_char, is_target_char as is_char_of_target};
ghost use Rattle.directory_links.specs.Prelude.{is_parmname as is_name, is_same_name as are_same};

/// Returns `true` if a name can have this byte.
#[tactic(auto, unfolding(crate::specs::Characters::is_name_char))]
fn is_of_name(byte: u8) -> bool
    ensures { result ≡ is_name_char byte }
{
    byte.is_ascii_alphanumeric() || b"!#$&+-.^_`|~".contains(&byte)
}

fn all_of_name(text: &[u8]) -> bool
    ensures { result ≡ list_all is_name_char text.now }
{
    text.iter().all(|byte| is_of_name(*byte))
}

/// Returns `true` if the text is a `parmname`: the name of an attribute, without the `*` of an extended one (RFC 6690
/// section 2).
pub fn is_parmname(text: &[u8]) -> bool
    ensures { result ≡ is_name text.now }
{
    let Some((first, rest)) = text.split_first() else {
        return false;
    };
    is_of_name(*first) && all_of_name(rest)
}

/// Returns `true` if two names of attributes are the same. Names do not differ by the case of letters (RFC 8288 section
/// 3).
pub fn is_same_name(one: &[u8], other: &[u8]) -> bool
    ensures { result ≡ are_same one.now other.now }
{
    one.eq_ignore_ascii_case(other)
}

/// Returns `true` if a token can have this byte.
#[tactic(auto, unfolding(crate::specs::Characters::is_token_char))]
fn is_of_token(byte: u8) -> bool
    ensures { result ≡ is_token_char byte }
{
    byte.is_ascii_alphanumeric() || b"!#$%&'()*+-./:<=>?@[]^_`{|}~".contains(&byte)
}

/// Returns `true` if the target of a link can have this byte: a character of a URI (RFC 3986 section 2).
#[tactic(auto, unfolding(crate::specs::Characters::is_target_char))]
pub fn is_target_char(byte: u8) -> bool
    ensures { result ≡ is_char_of_target byte }
{
    byte.is_ascii_alphanumeric() || b"-._~:/?#[]@!$&'()*+,;=%".contains(&byte)
}

/// Returns `true` if a quoted string can have this byte, if need be after a `\`.
pub(crate) fn is_of_quoted(byte: u8) -> bool
    ensures { result ≡ is_quoted_char byte }
{
    byte >= 32 && byte != 127
}

/// Returns the number of bytes at the front that a name can have.
pub(crate) fn name_length(text: &[u8]) -> usize
    ensures value { result ≡ prefix_len is_name_char text.now }
    ensures within { result ≤ length text.now }
{
    for (i, byte) in text.iter().enumerate() {
        if !is_of_name(*byte) {
            return i;
        }
    }
    text.len()
}

/// Returns the number of bytes at the front that a token can have.
pub(crate) fn token_length(text: &[u8]) -> usize
    ensures value { result ≡ prefix_len is_token_char text.now }
    ensures within { result ≤ length text.now }
{
    for (i, byte) in text.iter().enumerate() {
        if !is_of_token(*byte) {
            return i;
        }
    }
    text.len()
}

/// Returns the number of bytes at the front that a target can have.
pub(crate) fn target_length(text: &[u8]) -> usize
    ensures value { result ≡ prefix_len is_char_of_target text.now }
    ensures within { result ≤ length text.now }
{
    for (i, byte) in text.iter().enumerate() {
        if !is_target_char(*byte) {
            return i;
        }
    }
    text.len()
}
