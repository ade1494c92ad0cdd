//! The tables of names: codes, options and Content-Formats, as registered by IANA.

use coap_wire::option_numbers;

/// Format of the value of an option (RFC 7252 section 3.2).
#[derive(Clone, Copy)]
pub enum Format {
    /// Text.
    Text,
    /// Unsigned integer.
    Uint,
    /// Unsigned integer that is a Content-Format (RFC 7252 section 12.3).
    ContentFormat,
    /// Number, more flag and size of a block (RFC 7959 section 2.2).
    Block,
    /// Bytes of no known structure, or always empty.
    Opaque,
}

/// Row of a table of names: a number and its name.
pub type NameRow = (u16, &'static str);

/// Row of a table of options: a number, its name, and the format of its value.
pub type OptionRow = (u16, &'static str, Format);

/// Names of codes (RFC 7252, 7959, 8132, 8323, 8516, 8768). The number of a code is class * 32 + detail.
pub const CODE_NAMES: [NameRow; 40] = [
    (0, "Empty"),
    (1, "GET"),
    (2, "POST"),
    (3, "PUT"),
    (4, "DELETE"),
    (5, "FETCH"),
    (6, "PATCH"),
    (7, "iPATCH"),
    (2 * 32 + 1, "Created"),
    (2 * 32 + 2, "Deleted"),
    (2 * 32 + 3, "Valid"),
    (2 * 32 + 4, "Changed"),
    (2 * 32 + 5, "Content"),
    (2 * 32 + 31, "Continue"),
    (4 * 32, "Bad Request"),
    (4 * 32 + 1, "Unauthorized"),
    (4 * 32 + 2, "Bad Option"),
    (4 * 32 + 3, "Forbidden"),
    (4 * 32 + 4, "Not Found"),
    (4 * 32 + 5, "Method Not Allowed"),
    (4 * 32 + 6, "Not Acceptable"),
    (4 * 32 + 8, "Request Entity Incomplete"),
    (4 * 32 + 9, "Conflict"),
    (4 * 32 + 12, "Precondition Failed"),
    (4 * 32 + 13, "Request Entity Too Large"),
    (4 * 32 + 15, "Unsupported Content-Format"),
    (4 * 32 + 22, "Unprocessable Entity"),
    (4 * 32 + 29, "Too Many Requests"),
    (5 * 32, "Internal Server Error"),
    (5 * 32 + 1, "Not Implemented"),
    (5 * 32 + 2, "Bad Gateway"),
    (5 * 32 + 3, "Service Unavailable"),
    (5 * 32 + 4, "Gateway Timeout"),
    (5 * 32 + 5, "Proxying Not Supported"),
    (5 * 32 + 8, "Hop Limit Reached"),
    (7 * 32 + 1, "CSM"),
    (7 * 32 + 2, "Ping"),
    (7 * 32 + 3, "Pong"),
    (7 * 32 + 4, "Release"),
    (7 * 32 + 5, "Abort"),
];

/// Options of requests and responses (RFC 7252, 7641, 7959, 7967, 8613, 8768, 9175, 9177).
pub const OPTIONS: [OptionRow; 26] = [
    (option_numbers::IF_MATCH, "If-Match", Format::Opaque),
    (option_numbers::URI_HOST, "Uri-Host", Format::Text),
    (option_numbers::ETAG, "ETag", Format::Opaque),
    (
        option_numbers::IF_NONE_MATCH,
        "If-None-Match",
        Format::Opaque,
    ),
    (option_numbers::OBSERVE, "Observe", Format::Uint),
    (option_numbers::URI_PORT, "Uri-Port", Format::Uint),
    (option_numbers::LOCATION_PATH, "Location-Path", Format::Text),
    (9, "OSCORE", Format::Opaque),
    (option_numbers::URI_PATH, "Uri-Path", Format::Text),
    (
        option_numbers::CONTENT_FORMAT,
        "Content-Format",
        Format::ContentFormat,
    ),
    (option_numbers::MAX_AGE, "Max-Age", Format::Uint),
    (option_numbers::URI_QUERY, "Uri-Query", Format::Text),
    (16, "Hop-Limit", Format::Uint),
    (option_numbers::ACCEPT, "Accept", Format::ContentFormat),
    (19, "Q-Block1", Format::Block),
    (
        option_numbers::LOCATION_QUERY,
        "Location-Query",
        Format::Text,
    ),
    (23, "Block2", Format::Block),
    (27, "Block1", Format::Block),
    (28, "Size2", Format::Uint),
    (31, "Q-Block2", Format::Block),
    (option_numbers::PROXY_URI, "Proxy-Uri", Format::Text),
    (option_numbers::PROXY_SCHEME, "Proxy-Scheme", Format::Text),
    (option_numbers::SIZE1, "Size1", Format::Uint),
    (252, "Echo", Format::Opaque),
    (258, "No-Response", Format::Uint),
    (292, "Request-Tag", Format::Opaque),
];

/// Options of a CSM (RFC 8323 section 5.3, RFC 8974).
pub const CSM_OPTIONS: [OptionRow; 3] = [
    (2, "Max-Message-Size", Format::Uint),
    (4, "Block-Wise-Transfer", Format::Opaque),
    (6, "Extended-Token-Length", Format::Uint),
];

/// Options of a Ping or a Pong (RFC 8323 section 5.4.1).
pub const PING_OPTIONS: [OptionRow; 1] = [(2, "Custody", Format::Opaque)];

/// Options of a Release (RFC 8323 section 5.5).
pub const RELEASE_OPTIONS: [OptionRow; 2] = [
    (2, "Alternative-Address", Format::Text),
    (4, "Hold-Off", Format::Uint),
];

/// Options of an Abort (RFC 8323 section 5.6).
pub const ABORT_OPTIONS: [OptionRow; 1] = [(2, "Bad-CSM-Option", Format::Uint)];

/// Names of Content-Formats, without parameters (RFC 7252 section 12.3, RFC 8132, 8392, 8428, 8710, 8742, 8949, 9177).
pub const CONTENT_FORMATS: [NameRow; 15] = [
    (0, "text/plain"),
    (40, "application/link-format"),
    (41, "application/xml"),
    (42, "application/octet-stream"),
    (47, "application/exi"),
    (50, "application/json"),
    (51, "application/json-patch+json"),
    (52, "application/merge-patch+json"),
    (60, "application/cbor"),
    (61, "application/cwt"),
    (62, "application/multipart-core"),
    (63, "application/cbor-seq"),
    (110, "application/senml+json"),
    (112, "application/senml+cbor"),
    (272, "application/missing-blocks+cbor-seq"),
];
