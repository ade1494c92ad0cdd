//! The attributes of a link (RFC 6690 section 2), checked byte by byte.

ghost use Rattle.std.specs.Prelude.{◌≡◌, if◌then◌else◌};
ghost use Rattle.coap_path.specs.Prelude.{is_name_char, is_token_char};
ghost use Rattle.coap_path.specs.Prelude.{is_quoted_char, are_attributes as is_text, scan_with};
ghost use Rattle.coap_path.specs.Prelude.{may_end as is_end, after_name_start, after_name, after_value_start};
ghost use Rattle.coap_path.specs.Prelude.{after_token, after_quoted};
ghost use Rattle.coap_path.specs.declared.attributes.AttributeScan.TheVariants.{Rejected};

/// Maximum number of bytes of the attributes.
const MAX_ATTRIBUTES: usize = 255;

/// State of checking attributes, after some of their bytes.
#[derive(Clone, Copy)]
pub(crate) enum AttributeScan {
    /// Before the first byte. There may be no parameter.
    Start,
    /// At a name, after `;`.
    AtName,
    /// In a name, after at least one byte of it.
    InName,
    /// After the `*` that ends a name.
    AfterStar,
    /// After the `=` that follows such a `*`. The value is no quoted string.
    AtExtended,
    /// After another `=` that ends a name.
    AtValue,
    /// In a token, after at least one byte of it.
    InToken,
    /// In a quoted string.
    InQuotes,
    /// In a quoted string, after a `\`.
    Escaped,
    /// After a quoted string.
    AfterQuotes,
    /// After a byte that cannot occur at its place.
    Rejected,
}

/// Returns `true` if a name can have this byte.
#[tactic(auto, unfolding(crate::specs::Attributes::is_name_char))]
fn is_of_name(byte: u8) -> bool
    ensures { result ≡ is_name_char byte }
{
    byte.is_ascii_alphanumeric() || b"!#$&+-.^_`|~".contains(&byte)
}

/// Returns `true` if a token can have this byte.
#[tactic(auto, unfolding(crate::specs::Attributes::is_token_char))]
fn is_of_token(byte: u8) -> bool
    ensures { result ≡ is_token_char byte }
{
    byte.is_ascii_alphanumeric() || b"!#$%&'()*+-./:<=>?@[]^_`{|}~".contains(&byte)
}

/// Returns `true` if a quoted string can have this byte, if need be after a `\`.
fn is_of_quoted(byte: u8) -> bool
    ensures { result ≡ is_quoted_char byte }
{
    byte >= 32 && byte != 127
}

/// Returns the state after the first byte of a name.
fn at_name(byte: u8) -> AttributeScan
    ensures { result ≡ after_name_start byte }
{
    if is_of_name(byte) {
        AttributeScan::InName
    } else {
        AttributeScan::Rejected
    }
}

/// Returns the state after a byte that follows some of a name.
fn in_name(byte: u8) -> AttributeScan
    ensures { result ≡ after_name byte }
{
    if is_of_name(byte) {
        return AttributeScan::InName;
    }
    match byte {
        b'*' => AttributeScan::AfterStar,
        b'=' => AttributeScan::AtValue,
        b';' => AttributeScan::AtName,
        _ => AttributeScan::Rejected,
    }
}

/// Returns the state after the first byte of a value.
fn at_value(byte: u8) -> AttributeScan
    ensures { result ≡ after_value_start byte }
{
    if byte == b'"' {
        return AttributeScan::InQuotes;
    }
    if is_of_token(byte) {
        AttributeScan::InToken
    } else {
        AttributeScan::Rejected
    }
}

/// Returns the state after a byte that follows some of a token.
fn in_token(byte: u8) -> AttributeScan
    ensures { result ≡ after_token byte }
{
    if is_of_token(byte) {
        return AttributeScan::InToken;
    }
    if byte == b';' {
        AttributeScan::AtName
    } else {
        AttributeScan::Rejected
    }
}

/// Returns the state after a byte in a quoted string.
fn in_quotes(byte: u8) -> AttributeScan
    ensures { result ≡ after_quoted byte }
{
    match byte {
        b'"' => AttributeScan::AfterQuotes,
        b'\\' => AttributeScan::Escaped,
        _ if is_of_quoted(byte) => AttributeScan::InQuotes,
        _ => AttributeScan::Rejected,
    }
}

impl AttributeScan {
    /// Returns this state if `holds`, and `Rejected` otherwise.
    fn only_if(self, holds: bool) -> AttributeScan
        ensures { result ≡ (if holds then self else Rejected) }
    {
        if holds { self } else { AttributeScan::Rejected }
    }

    /// Returns the state after another byte.
    fn with(self, byte: u8) -> AttributeScan
        ensures { result ≡ scan_with self byte }
    {
        match self {
            AttributeScan::Start | AttributeScan::AtName => at_name(byte),
            AttributeScan::InName => in_name(byte),
            AttributeScan::AfterStar => AttributeScan::AtExtended.only_if(byte == b'='),
            AttributeScan::AtExtended => AttributeScan::InToken.only_if(is_of_token(byte)),
            AttributeScan::AtValue => at_value(byte),
            AttributeScan::InToken => in_token(byte),
            AttributeScan::InQuotes => in_quotes(byte),
            AttributeScan::Escaped => AttributeScan::InQuotes.only_if(is_of_quoted(byte)),
            AttributeScan::AfterQuotes => AttributeScan::AtName.only_if(byte == b';'),
            AttributeScan::Rejected => AttributeScan::Rejected,
        }
    }

    /// Returns `true` if the attributes may end here.
    fn may_end(self) -> bool
        ensures { result ≡ is_end self }
    {
        match self {
            AttributeScan::Start => true,
            AttributeScan::InName => true,
            AttributeScan::InToken => true,
            AttributeScan::AfterQuotes => true,
            _ => false,
        }
    }
}

/// Returns `true` if these are the attributes of a link: parameters separated by `;`, of at most 255 bytes in all.
#[tactic(auto, unfolding(crate::specs::Attributes::are_attributes))]
pub(crate) fn are_attributes(bytes: &[u8]) -> bool
    ensures { result ≡ is_text bytes.now }
{
    if bytes.len() > MAX_ATTRIBUTES {
        return false;
    }
    let mut scan = AttributeScan::Start;
    for byte in bytes {
        scan = scan.with(*byte);
    }
    scan.may_end()
}
