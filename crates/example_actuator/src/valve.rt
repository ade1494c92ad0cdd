//! The valve, as the application of a server: it answers the requests of /valve.

ghost use Rattle.std.specs.Prelude.{◌≡◌, ◌≤◌, [], true, false, vec_capacity, IfOk};
ghost use Rattle.coap_serve.specs.Prelude.{Spells};
ghost use Rattle.example_actuator.specs.Position.{IsPosition};

use coap_serve::option_numbers::{ACCEPT, CONTENT_FORMAT, IF_MATCH, IF_NONE_MATCH, URI_QUERY};
use coap_serve::{
    Application, BuildFault, Builder, Code, ConnId, MessageRef, PathKey, Reply, ResponseFault,
    TokenRef, Wait, request_path, uint_value,
};

/// Byte of the code 4.15 (Unsupported Content-Format).
const UNSUPPORTED_FORMAT: u8 = 0x8f;

/// Valve that clients open and close.
#[derive(Drop)]
pub(crate) struct Valve {
    is_open: bool,
}

/// Returns the path of the valve, or `None` if no resource can have it.
pub(crate) fn path() -> Option<PathKey> {
    PathKey::from_segments(&[b"valve"])
}

/// Returns `true` if the request has a recognised option with this number.
fn has_option(request: &MessageRef<'_>, number: u16) -> bool {
    request.known().any(|option| option.number == number)
}

/// Returns `true` if If-Match and If-None-Match hold (RFC 7252 section 5.10.8). The valve exists, and has no ETag.
fn conditions_hold(request: &MessageRef<'_>) -> bool {
    let matches_any = request.known().any(|option| option.number == IF_MATCH
        && option.value.is_empty());
    (matches_any || !has_option(request, IF_MATCH)) && !has_option(request, IF_NONE_MATCH)
}

/// Returns `true` unless the option with this number names another format than text/plain, which is 0.
fn is_text(request: &MessageRef<'_>, number: u16) -> bool {
    request.known().all(|option| option.number != number || uint_value(option.value) == Some(0))
}

/// Returns the code of the response to a request. The server has checked unrecognised critical options. A request of a
/// path below /valve comes here too.
fn code_for(request: &MessageRef<'_>) -> Code {
    if request_path(request) != path() || has_option(request, URI_QUERY) {
        return Code::NOT_FOUND;
    }
    if request.code() != Code::GET && request.code() != Code::PUT {
        return Code::METHOD_NOT_ALLOWED;
    }
    if !conditions_hold(request) {
        return Code::PRECONDITION_FAILED;
    }
    if request.code() == Code::GET {
        return if is_text(request, ACCEPT) {
            Code::CONTENT
        } else {
            Code::NOT_ACCEPTABLE
        };
    }
    if !is_text(request, CONTENT_FORMAT) {
        return Code::new(UNSUPPORTED_FORMAT);
    }
    match request.payload() {
        b"open" | b"closed" => Code::CHANGED,
        _ => Code::BAD_REQUEST,
    }
}

/// Returns a response with this code, and with the position if it is 2.05.
fn response_for<'a>(
    code: Code,
    token: &TokenRef<'a>,
    position: &'a [u8],
) -> Result<Builder<'a>, BuildFault>
    ensures code { IfOk result (λ m. m.code ≡ code) }
    ensures token { IfOk result (λ m. m.token ≡ token.now) }
{
    let mut response: Builder = Builder::with_token_ref(code, token.copy());
    if code != Code::CONTENT {
        return Ok(response);
    }
    // An empty value is the number 0: text/plain.
    response.option(CONTENT_FORMAT, b"")?;
    response.payload(position)?;
    Ok(response)
}

/// Writes a response. Returns `false` if allocation fails, and writes nothing then.
fn write(response: &Builder<'_>, out: &mut Vec<u8>) -> bool
    requires { out.old.items ≡ [] }
    ensures written { result ≡ true → Spells out.new.items response.now }
    ensures empty { result ≡ false → out.new.items ≡ [] }
    ensures capacity { vec_capacity out.old ≤ vec_capacity out.new }
{
    if out.reserve(response.size() as usize).is_err() {
        return false;
    }
    response.write(out);
    true
}

impl Valve {
    /// Returns a valve that is closed.
    pub(crate) fn new() -> Valve {
        Valve { is_open: false }
    }
}

#[tactic(auto, unfolding(coap_serve::specs::Prelude::AnswersMore))]
impl Application for Valve {
    ghost follows = { λ valve exchanges. IsPosition exchanges valve.is_open };

    fn request(&mut self, _id: ConnId, request: &MessageRef<'_>, _limit: usize, out: &mut Vec<u8>) {
        let code = code_for(request);
        let position: &[u8] = if self.is_open { b"open" } else { b"closed" };
        let Ok(response) = response_for(code, request.token(), position) else {
            return;
        };
        // Without memory the valve stays, and the server sends 5.04 at the deadline.
        if !write(&response, out) {
            return;
        }
        if code == Code::CHANGED {
            self.is_open = request.payload() == b"open".as_slice();
        }
    }

    fn next_response(&mut self, _out: &mut Vec<u8>) -> Option<ConnId> {
        None
    }

    fn responded(&mut self, _id: ConnId, _outcome: Result<Reply, ResponseFault>) {}

    fn wait(&self, _now: u64) -> Wait {
        Wait::Forever
    }

    fn gone(&mut self, _id: ConnId) {}
}
