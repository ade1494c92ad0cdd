//! Settings of a run of `coap-client`, as a command line gives them.

ghost use Rattle.std.specs.Prelude.{◌≡◌};
ghost use Rattle.coap_client_request.specs.Prelude.{extras_value, planned_extras};

use crate::request::{Extras, Method};
use crate::target::Target;
use coap_print::LogLevel;

/// Settings of a run of `coap-client`.
#[derive(Drop)]
pub struct ClientPlan {
    /// Target of the request, from the URI.
    pub target: Target,
    /// Method of the request.
    pub method: Method,
    /// Duration of the observation in seconds, or `None` for a request without Observe (RFC 7641).
    pub observe: Option<u32>,
    /// Maximum time to wait for a response, in seconds, at least 1.
    pub wait: u32,
    /// Option to omit Uri-Host.
    pub plain: bool,
    /// Option to write a newline after each payload.
    pub newline: bool,
    /// Content-Format of the payload (RFC 7252 section 5.10.3).
    pub content_format: Option<u16>,
    /// Content-Format in the Accept option (RFC 7252 section 5.10.4).
    pub accept: Option<u16>,
    /// Number and value of an extra option. The value has at most 1,034 bytes.
    pub option: Option<(u16, Vec<u8>)>,
    /// Payload from the command line, empty if there is none.
    pub payload: Vec<u8>,
    /// Name of the file with the payload, `-` for standard input.
    pub input: Option<String>,
    /// Name of the file for responses. Both `-` and `None` stand for standard output.
    pub output: Option<String>,
    /// Level of the log on standard error.
    pub log: LogLevel,
}

impl ClientPlan {
    /// Returns the properties of the request besides its method and its target.
    pub fn extras(&self) -> Extras
        ensures { extras_value result ≡ planned_extras self.now }
    {
        let option = match &self.option {
            Some((number, value)) => Some((*number, value.as_slice())),
            None => None,
        };
        Extras {
            observe: self.observe.is_some(),
            plain: self.plain,
            content_format: self.content_format,
            accept: self.accept,
            option,
            payload: &self.payload,
        }
    }
}
