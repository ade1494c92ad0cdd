//! The code of a message, with a constant for each code that this project uses.

ghost use Rattle.std.specs.Prelude.{◌≡◌, ℕ};
ghost use Rattle.coap_wire.specs.Codes.{class_of, detail_of};

use std::marker::Model;

/// Code of a message: a class of 3 bits and a detail of 5 bits (RFC 7252 section 3, RFC 8323 section 3.2). Contracts
/// see its byte, class * 32 + detail.
#[derive(Clone, Copy, PartialEq, Eq)]
pub struct Code {
    byte: u8,
}

impl Model for Code {
    ghost Value = { ℕ };

    ghost view = { λ c. c.byte };

    ghost inverse = { λ n. record { byte = n } };
}

impl Code {
    /// 0.00, Empty (RFC 7252 section 4.1, RFC 8323 section 3.4).
    pub const EMPTY: Code = Code { byte: 0x00 };

    /// 0.01, GET (RFC 7252 section 5.8.1).
    pub const GET: Code = Code { byte: 0x01 };

    /// 0.02, POST (RFC 7252 section 5.8.2).
    pub const POST: Code = Code { byte: 0x02 };

    /// 0.03, PUT (RFC 7252 section 5.8.3).
    pub const PUT: Code = Code { byte: 0x03 };

    /// 0.04, DELETE (RFC 7252 section 5.8.4).
    pub const DELETE: Code = Code { byte: 0x04 };

    /// 2.01, Created (RFC 7252 section 5.9.1.1).
    pub const CREATED: Code = Code { byte: 0x41 };

    /// 2.02, Deleted (RFC 7252 section 5.9.1.2).
    pub const DELETED: Code = Code { byte: 0x42 };

    /// 2.03, Valid (RFC 7252 section 5.9.1.3).
    pub const VALID: Code = Code { byte: 0x43 };

    /// 2.04, Changed (RFC 7252 section 5.9.1.4).
    pub const CHANGED: Code = Code { byte: 0x44 };

    /// 2.05, Content (RFC 7252 section 5.9.1.5).
    pub const CONTENT: Code = Code { byte: 0x45 };

    /// 4.00, Bad Request (RFC 7252 section 5.9.2.1).
    pub const BAD_REQUEST: Code = Code { byte: 0x80 };

    /// 4.02, Bad Option (RFC 7252 section 5.9.2.3).
    pub const BAD_OPTION: Code = Code { byte: 0x82 };

    /// 4.04, Not Found (RFC 7252 section 5.9.2.5).
    pub const NOT_FOUND: Code = Code { byte: 0x84 };

    /// 4.05, Method Not Allowed (RFC 7252 section 5.9.2.6).
    pub const METHOD_NOT_ALLOWED: Code = Code { byte: 0x85 };

    /// 4.06, Not Acceptable (RFC 7252 section 5.9.2.7).
    pub const NOT_ACCEPTABLE: Code = Code { byte: 0x86 };

    /// 4.12, Precondition Failed (RFC 7252 section 5.9.2.8).
    pub const PRECONDITION_FAILED: Code = Code { byte: 0x8c };

    /// 4.13, Request Entity Too Large (RFC 7252 section 5.9.2.9).
    pub const REQUEST_ENTITY_TOO_LARGE: Code = Code { byte: 0x8d };

    /// 5.00, Internal Server Error (RFC 7252 section 5.9.3.1).
    pub const INTERNAL_SERVER_ERROR: Code = Code { byte: 0xa0 };

    /// 5.01, Not Implemented (RFC 7252 section 5.9.3.2).
    pub const NOT_IMPLEMENTED: Code = Code { byte: 0xa1 };

    /// 5.03, Service Unavailable (RFC 7252 section 5.9.3.4).
    pub const SERVICE_UNAVAILABLE: Code = Code { byte: 0xa3 };

    /// 5.04, Gateway Timeout (RFC 7252 section 5.9.3.5).
    pub const GATEWAY_TIMEOUT: Code = Code { byte: 0xa4 };

    /// 5.05, Proxying Not Supported (RFC 7252 section 5.9.3.6).
    pub const PROXYING_NOT_SUPPORTED: Code = Code { byte: 0xa5 };

    /// 7.01, Capabilities and Settings (RFC 8323 section 5.3).
    pub const CSM: Code = Code { byte: 0xe1 };

    /// 7.02, Ping (RFC 8323 section 5.4).
    pub const PING: Code = Code { byte: 0xe2 };

    /// 7.03, Pong (RFC 8323 section 5.4).
    pub const PONG: Code = Code { byte: 0xe3 };

    /// 7.04, Release (RFC 8323 section 5.5).
    pub const RELEASE: Code = Code { byte: 0xe4 };

    /// 7.05, Abort (RFC 8323 section 5.6).
    pub const ABORT: Code = Code { byte: 0xe5 };

    /// Returns the code with this byte. Every byte is a code.
    pub const fn new(byte: u8) -> Code
        ensures { result ≡ byte }
    {
        Code { byte }
    }

    /// Returns the byte that encodes the code.
    pub const fn byte(self) -> u8
        ensures { result ≡ self }
    {
        self.byte
    }

    /// Returns the class, 0 to 7.
    ///
    /// Class 0 is requests and Empty, 2 to 5 are responses, and 7 is signalling. Classes 1 and 6 are reserved.
    pub const fn class(self) -> u8
        ensures { result ≡ class_of self }
    {
        self.byte / 32
    }

    /// Returns the detail, 0 to 31.
    pub const fn detail(self) -> u8
        ensures { result ≡ detail_of self }
    {
        self.byte % 32
    }
}

const _: () = prove!(
    Code::EMPTY.byte == 0
        && Code::GET.byte == 1
        && Code::POST.byte == 2
        && Code::PUT.byte == 3
        && Code::DELETE.byte == 4
);

const _: () = prove!(
    Code::CREATED.byte == 2 * 32 + 1
        && Code::DELETED.byte == 2 * 32 + 2
        && Code::VALID.byte == 2 * 32 + 3
        && Code::CHANGED.byte == 2 * 32 + 4
        && Code::CONTENT.byte == 2 * 32 + 5
);

const _: () = prove!(
    Code::BAD_REQUEST.byte == 4 * 32
        && Code::BAD_OPTION.byte == 4 * 32 + 2
        && Code::NOT_FOUND.byte == 4 * 32 + 4
        && Code::METHOD_NOT_ALLOWED.byte == 4 * 32 + 5
        && Code::NOT_ACCEPTABLE.byte == 4 * 32 + 6
        && Code::PRECONDITION_FAILED.byte == 4 * 32 + 12
        && Code::REQUEST_ENTITY_TOO_LARGE.byte == 4 * 32 + 13
        && Code::INTERNAL_SERVER_ERROR.byte == 5 * 32
        && Code::NOT_IMPLEMENTED.byte == 5 * 32 + 1
        && Code::SERVICE_UNAVAILABLE.byte == 5 * 32 + 3
        && Code::GATEWAY_TIMEOUT.byte == 5 * 32 + 4
        && Code::PROXYING_NOT_SUPPORTED.byte == 5 * 32 + 5
);

const _: () = prove!(
    Code::CSM.byte == 7 * 32 + 1
        && Code::PING.byte == 7 * 32 + 2
        && Code::PONG.byte == 7 * 32 + 3
        && Code::RELEASE.byte == 7 * 32 + 4
        && Code::ABORT.byte == 7 * 32 + 5
);
