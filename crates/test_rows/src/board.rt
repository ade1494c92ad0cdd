//! An application in memory, which answers GET and PUT of `/rd`.

use crate::application::applications;
use coap_conn::Reply;
use coap_io::Wait;
use coap_model::{ConnId, ResponseFault};
use coap_path::{ApplicationFault, Applications};
use coap_server_engine::Application;
use coap_wire::{Code, MessageRef};
use std::alloc::Global;

/// Application that answers PUT at once, and another request when it is asked next. A wait lasts at most 7 seconds, and
/// there is none before a later response.
#[derive(Clone, Copy)]
pub(crate) struct Board {
    later: Option<ConnId>,
    /// Numbers of requests, of later responses that were accepted, and of connections that ended.
    pub counts: (u32, u32, u32),
}

/// Creates the entries of the application. It has 60 seconds for a response.
pub(crate) fn entries(alloc: Global) -> Result<Applications, ApplicationFault> {
    applications(alloc, 60, "/rd:0103:")
}

impl Board {
    /// Creates an application that has received nothing.
    pub(crate) fn new() -> Board {
        Board {
            later: None,
            counts: (0, 0, 0),
        }
    }
}

impl Application for Board {
    #[tactic(auto, unfolding(coap_server_engine::specs::values::Exchanges::AnswersMore))]
    fn request(
        &mut self,
        from: ConnId,
        request: &MessageRef<'_>,
        _limit: usize,
        response: &mut Vec<u8>,
    ) {
        self.counts.0 = self.counts.0.saturating_add(1);
        if request.code() == Code::PUT {
            let _ = response.extend_from_slice(b"\x01\x44\x2a");
        } else {
            self.later = Some(from);
        }
    }

    #[tactic(auto, unfolding(coap_server_engine::specs::values::Exchanges::AnswersMore))]
    fn next_response(&mut self, response: &mut Vec<u8>) -> Option<ConnId> {
        let from = self.later?;
        self.later = None;
        let _ = response.extend_from_slice(b"\x01\x45\x2b");
        Some(from)
    }

    #[tactic(auto, unfolding(coap_server_engine::specs::values::Exchanges::AnswersMore))]
    fn responded(&mut self, _to: ConnId, outcome: Result<Reply, ResponseFault>) {
        if outcome.is_ok() {
            self.counts.1 = self.counts.1.saturating_add(1);
        }
    }

    fn wait(&self, now: u64) -> Wait {
        if self.later.is_some() {
            return Wait::No;
        }
        Wait::Until(now.saturating_add(7))
    }

    #[tactic(auto, unfolding(coap_server_engine::specs::values::Exchanges::AnswersMore))]
    fn gone(&mut self, _from: ConnId) {
        self.counts.2 = self.counts.2.saturating_add(1);
    }
}
