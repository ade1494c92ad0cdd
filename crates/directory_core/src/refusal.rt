//! The reasons for which a request is refused.

ghost use Rattle.std.specs.Prelude.{◌≡◌};
ghost use Rattle.directory_core.specs.Prelude.{code_of_refusal, text_of_refusal};

use coap_wire::Code;

/// Reason for which a request is refused.
#[derive(Clone, Copy)]
pub enum Refusal {
    /// No resource has the path (4.04).
    Path,
    /// The resource does not have the method (4.05).
    Method,
    /// The payload is not in link format by its Content-Format (4.15).
    Format,
    /// A parameter of a registration is given twice (4.00).
    Repeated,
    /// The endpoint has no name, or a name of more than 63 bytes, with a control character, or that is no UTF-8 (4.00).
    Endpoint,
    /// The lifetime is no number from 1 to 4,294,967,295 (4.00).
    Lifetime,
    /// The base URI is missing, or is not of a scheme and an authority (4.00).
    Base,
    /// A query is malformed (4.00).
    Query,
    /// The payload is not in link format (4.00).
    Links,
    /// A target begins neither with a scheme nor with a single slash (4.00).
    Target,
    /// The limit of registrations is reached (5.03).
    Full,
    /// The result of a lookup is too large (4.00).
    TooLarge,
    /// A query has a reserved name, or one that no attribute can have (4.00).
    Name,
    /// An endpoint would have more than 64 attributes (4.00).
    Many,
    /// An update gives `ep` or `d`, the key of the endpoint (4.00).
    Key,
    /// An update has a payload (4.00).
    Payload,
    /// If-Match or If-None-Match does not hold (4.12).
    Condition,
    /// Accept names a format other than link format (4.06).
    Accept,
}

impl Refusal {
    /// Returns the code of the response.
    pub fn code(self) -> Code
        ensures { result ≡ code_of_refusal self }
    {
        match self {
            Refusal::Path => Code::NOT_FOUND,
            Refusal::Method => Code::METHOD_NOT_ALLOWED,
            Refusal::Format => Code::new(0x8f),
            Refusal::Repeated => Code::BAD_REQUEST,
            Refusal::Endpoint => Code::BAD_REQUEST,
            Refusal::Lifetime => Code::BAD_REQUEST,
            Refusal::Base => Code::BAD_REQUEST,
            Refusal::Query => Code::BAD_REQUEST,
            Refusal::Links => Code::BAD_REQUEST,
            Refusal::Target => Code::BAD_REQUEST,
            Refusal::Full => Code::SERVICE_UNAVAILABLE,
            Refusal::TooLarge => Code::BAD_REQUEST,
            Refusal::Name => Code::BAD_REQUEST,
            Refusal::Many => Code::BAD_REQUEST,
            Refusal::Key => Code::BAD_REQUEST,
            Refusal::Payload => Code::BAD_REQUEST,
            Refusal::Condition => Code::PRECONDITION_FAILED,
            Refusal::Accept => Code::NOT_ACCEPTABLE,
        }
    }

    /// Returns the diagnostic payload of the response (RFC 7252 section 5.5.2).
    pub fn text(self) -> &'static [u8]
        ensures { result.now ≡ text_of_refusal self }
    {
        match self {
            Refusal::Path => b"",
            Refusal::Method => b"",
            Refusal::Format => b"Content-Format must be 40",
            Refusal::Repeated => b"ep, d, lt and base can be given once",
            Refusal::Endpoint =>
                b"ep must have 1 to 63 bytes of UTF-8 without controls, d at most 63",
            Refusal::Lifetime => b"lt must be 1 to 4294967295",
            Refusal::Base => b"base is required, as in coap+tcp://host:5683",
            Refusal::Query => b"malformed query",
            Refusal::Links => b"payload is not in link format",
            Refusal::Target => b"targets must begin with a scheme or with /",
            Refusal::Full => b"",
            Refusal::TooLarge => b"result too large: use page and count",
            Refusal::Name => b"a query has a reserved name, or one that no attribute can have",
            Refusal::Many => b"an endpoint has at most 64 attributes",
            Refusal::Key => b"ep and d cannot be updated",
            Refusal::Payload => b"an update has no payload",
            Refusal::Condition => b"",
            Refusal::Accept => b"results have Content-Format 40",
        }
    }
}
