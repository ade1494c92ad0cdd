//! The application of docs/EMBEDDING.md that responds later: an oven. `crates/example_actuator` responds at once.

use coap_serve::option_numbers::{ACCEPT, IF_MATCH, IF_NONE_MATCH, URI_QUERY};
use coap_serve::{
    Application, Builder, Code, ConnId, MessageRef, PathKey, Reply, ResponseFault, Token, Wait,
    parse, request_path,
};
use std::process::Abort;
use std::test::Fail;

/// Oven that responds to a request when it is hot.
#[derive(Drop)]
struct Oven {
    is_hot: bool,
    waiting: Option<(ConnId, Token)>,
}

impl Oven {
    /// Returns the code of an error response, or `None` if the oven accepts the request. It recognises no such option.
    fn refusal(&self, request: &MessageRef<'_>) -> Option<Code> {
        if request_path(request) != PathKey::from_segments(&[b"oven"]) {
            return Some(Code::NOT_FOUND);
        }
        let unsupported = [IF_MATCH, IF_NONE_MATCH, URI_QUERY, ACCEPT];
        if request
            .known()
            .any(|option| unsupported.contains(&option.number))
        {
            return Some(Code::BAD_OPTION);
        }
        if self.waiting.is_some() {
            return Some(Code::SERVICE_UNAVAILABLE);
        }
        None
    }
}

#[tactic(auto, unfolding(coap_serve::specs::Prelude::AnswersMore))]
impl Application for Oven {
    fn request(&mut self, id: ConnId, request: &MessageRef<'_>, _limit: usize, out: &mut Vec<u8>) {
        let Some(code) = self.refusal(request) else {
            self.waiting = Some((id, request.token().to_token()));
            return;
        };
        let refused: Builder = Builder::with_token_ref(code, request.token().copy());
        if out.reserve(refused.size() as usize).is_ok() {
            refused.write(out);
        }
    }

    fn next_response(&mut self, out: &mut Vec<u8>) -> Option<ConnId> {
        if !self.is_hot {
            return None;
        }
        let (id, token) = self.waiting.take()?;
        let hot: Builder = Builder::new(Code::CHANGED, &token);
        out.reserve(hot.size() as usize).ok()?;
        hot.write(out);
        Some(id)
    }

    fn responded(&mut self, _id: ConnId, _outcome: Result<Reply, ResponseFault>) {}

    fn wait(&self, _now: u64) -> Wait {
        Wait::Forever
    }

    fn gone(&mut self, id: ConnId) {
        if matches!(&self.waiting, Some((from, _)) if *from == id) {
            self.waiting = None;
        }
    }
}

/// Creates an oven that is not hot.
fn cold() -> Oven {
    Oven {
        is_hot: false,
        waiting: None,
    }
}

/// Passes a request of a connection to an oven, and asserts which response it gives at once.
fn asks(
    rt: &(impl Abort + AllocGlobal),
    oven: &mut Oven,
    id: ConnId,
    frame: &[u8],
    wanted: &[u8],
) -> Result<(), Fail> {
    let request = parse(frame)?;
    let mut response = Vec::with_capacity(rt.alloc(), 65_536)?;
    oven.request(id, &request, 65_536, &mut response);
    assert!(rt; response.as_slice() == wanted);
    Ok(())
}

/// Asserts which response an oven gives later, and to which connection.
fn responds(rt: &(impl Abort + AllocGlobal), oven: &mut Oven, id: Option<ConnId>, wanted: &[u8]) {
    let mut response = Vec::new(rt.alloc());
    assert!(rt; oven.next_response(&mut response) == id);
    assert!(rt; response.as_slice() == wanted);
}

#[test]
fn waits_for_an_oven(rt: HostRuntime) -> Result<(), Fail> {
    let mut oven = cold();
    asks(&rt, &mut oven, 7, b"\x51\x02\x2a\xb4oven", b"")?;
    responds(&rt, &mut oven, None, b"");
    oven.gone(6);
    oven.is_hot = true;
    responds(&rt, &mut oven, Some(7), b"\x01\x44\x2a");
    Ok(())
}

#[test]
fn refuses_another_path(rt: HostRuntime) -> Result<(), Fail> {
    let mut oven = cold();
    // A path below that of the oven.
    asks(
        &rt,
        &mut oven,
        7,
        b"\x71\x02\x2a\xb4oven\x01x",
        b"\x01\x84\x2a",
    )?;
    assert!(&rt; oven.waiting.is_none());
    Ok(())
}

#[test]
fn refuses_a_condition(rt: HostRuntime) -> Result<(), Fail> {
    let mut oven = cold();
    // An empty If-Match.
    asks(
        &rt,
        &mut oven,
        7,
        b"\x61\x02\x2a\x10\xa4oven",
        b"\x01\x82\x2a",
    )?;
    assert!(&rt; oven.waiting.is_none());
    Ok(())
}

#[test]
fn refuses_a_second_request(rt: HostRuntime) -> Result<(), Fail> {
    let mut oven = cold();
    asks(&rt, &mut oven, 7, b"\x51\x02\x2a\xb4oven", b"")?;
    asks(&rt, &mut oven, 8, b"\x51\x02\x2a\xb4oven", b"\x01\xa3\x2a")?;
    oven.gone(7);
    assert!(&rt; oven.waiting.is_none());
    Ok(())
}
