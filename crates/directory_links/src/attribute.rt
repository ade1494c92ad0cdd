//! An attribute of a link, and its value.

/// Value of an attribute, borrowed from the text.
#[derive(Clone, Copy, Default)]
pub enum ValueRef<'a> {
    /// No value.
    #[default]
    Absent,
    /// Value after a name that ends with `*` (RFC 5987 section 3.2.1: `ext-value`).
    Extended(&'a [u8]),
    /// Token.
    Token(&'a [u8]),
    /// Text between the quotes of a quoted string, with its backslashes.
    Quoted(&'a [u8]),
}

/// Attribute of a link, borrowed from the text.
#[derive(Clone, Copy, Default)]
pub struct AttributeRef<'a> {
    /// Name, without the `*` of an extended one.
    pub name: &'a [u8],
    /// Value.
    pub value: ValueRef<'a>,
}
