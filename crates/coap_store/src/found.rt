//! Representations, which are stored or computed.

ghost use Rattle.std.specs.Prelude.{◌≡◌, Some};
ghost use Rattle.coap_store.specs.Prelude.{bytes_in, IsTextOf, built as built_in, found_value, representation};

use crate::resource::Resource;
use arrayvec::ArrayVec;
use coap_text::decimal_digits;

/// Bytes of a representation.
#[derive(Clone, Copy)]
pub enum Payload<'s> {
    /// Bytes of the store or of a constant.
    Stored(&'s [u8]),
    /// Number, whose decimal text is the payload. It is formatted only where the bytes are needed.
    Decimal(u64),
}

/// Text of a `Payload::Decimal`. It is empty for other payloads.
pub(crate) type PayloadText = ArrayVec<u8, 20>;

impl<'s> Payload<'s> {
    /// Returns the text of the number, if the payload is one.
    pub(crate) fn text(self) -> PayloadText
        ensures { IsTextOf self.entry result.items }
    {
        match self {
            Payload::Stored(_) => ArrayVec::new(),
            Payload::Decimal(number) => decimal_digits(number),
        }
    }

    /// Returns the bytes. `text` must be the text of the payload.
    pub(crate) fn bytes<'a>(&'a self, text: &'a PayloadText) -> &'a [u8]
        requires { IsTextOf self.now text.now.items }
        ensures { result.now ≡ bytes_in self.now }
    {
        match self {
            Payload::Stored(bytes) => bytes,
            Payload::Decimal(_) => text.as_slice(),
        }
    }
}

/// Representation of a resource at a certain time.
#[derive(Clone, Copy)]
pub(crate) struct RepresentationRef<'s> {
    /// Version, which is 0 for a built-in resource.
    pub version: u64,
    /// Content-Format, if there is one.
    pub format: Option<u16>,
    pub bytes: Payload<'s>,
}

impl<'s> RepresentationRef<'s> {
    /// Creates the representation of a created resource.
    pub(crate) fn of(resource: &'s Resource) -> RepresentationRef<'s>
        ensures { found_value result ≡ representation resource.now }
    {
        RepresentationRef {
            version: resource.version,
            format: resource.format,
            bytes: Payload::Stored(&resource.bytes),
        }
    }

    /// Creates the representation of a built-in resource.
    pub(crate) fn built(format: u16, bytes: Payload<'s>) -> RepresentationRef<'s>
        ensures { Some (found_value result) ≡ built_in format (bytes_in bytes.entry) }
    {
        RepresentationRef {
            version: 0,
            format: Some(format),
            bytes,
        }
    }
}
