//! The resource directory as the application of a server.

ghost use Rattle.std.specs.Prelude.{◌≡◌, ◌≤◌, ◌-◌, ℕ, List, [], ◌∷◌, ◌++◌, option_map, vec_len, vec_capacity};
ghost use Rattle.coap_io.specs.streams.DeviceTraces.{AddsCalls};
ghost use Rattle.coap_server_engine.specs.values.Exchanges.{AnswersMore, Requested};
ghost use Rattle.directory_core.specs.Replies.{new_directory};
ghost use Rattle.program_directory.specs.Answers.{Answers, IsAnswered, response_of};

use coap_conn::Reply as Queued;
use coap_io::{Clock, Wait};
use coap_model::{ConnId, ResponseFault};
use coap_server_engine::Application;
use coap_wire::{MessageRef, Token, TokenRef};
use directory_core::{Directory, Reply, write_response};

/// Largest size of a response without its token and its payload, in bytes: the head, Content-Format and the marker.
const HEAD: usize = 11;

/// Largest time of the directory, in seconds.
const LAST: u64 = (1 << 63) - 1;

/// Resource directory with the clock by which registrations end.
#[derive(Drop)]
pub(crate) struct DirectoryApplication<C: Drop> {
    directory: Directory,
    clock: C,
}

/// Appends the response of a reply. If there is no room for it, appends 5.00, and nothing if there is none for that.
fn write_reply<'a>(reply: Reply, content: Option<&'a [u8]>, token: &TokenRef<'a>, out: &mut Vec<u8>)
    ensures written { out.new.items ≡ out.old.items ++ response_of (vec_capacity out.old - vec_len out.old) token.now
        (option_map (λ c. c.now) content.entry) reply }
    ensures capacity { vec_capacity out.new ≡ vec_capacity out.old }
{
    let _ = write_response(reply, content, token, out)
        || write_response(Reply::OutOfMemory, None, token, out);
}

impl<C: Clock + Drop> DirectoryApplication<C> {
    /// Returns the application of a directory.
    pub(crate) fn new(directory: Directory, clock: C) -> DirectoryApplication<C>
        // A new directory has answered nothing.
        ensures begins { (limit capacity : ℕ) → directory ≡ new_directory limit capacity → Answers [] result.directory }
    {
        DirectoryApplication { directory, clock }
    }

    /// Appends the response to a request, which has this token.
    fn answer(
        &mut self,
        request: &MessageRef<'_>,
        token: &Token,
        limit: usize,
        response: &mut Vec<u8>,
    )
        ensures answered { (bytes : List ℕ) × (response.new.items ≡ response.old.items ++ bytes)
            × IsAnswered (AddsCalls (C.moments self.old.clock) (C.moments self.new.clock)) self.old.directory limit
            (vec_capacity response.old - vec_len response.old) request.now token.now.items bytes self.new.directory }
        ensures capacity { vec_capacity response.new ≡ vec_capacity response.old }
    {
        let now = self.clock.now().min(LAST);
        let results = limit.saturating_sub(HEAD + token.as_slice().len());
        let reply = self.directory.reply(now, results, request);
        write_reply(
            reply,
            self.directory.content(),
            &TokenRef::of(token),
            response,
        );
    }
}

impl<C: Clock + Drop> Application for DirectoryApplication<C> {
    ghost follows = { λ a exchanges. Answers exchanges a.directory };

    fn request(
        &mut self,
        from: ConnId,
        request: &MessageRef<'_>,
        limit: usize,
        response: &mut Vec<u8>,
    )
        requires empty { response.old.items ≡ [] }
        requires room { limit ≤ vec_capacity response.old }
        ensures follows { AnswersMore (λ exchanges. Answers exchanges self.old.directory)
            (λ exchanges. Answers exchanges self.new.directory)
            (Requested from request.now limit response.new.items ∷ []) }
        ensures answered { IsAnswered (AddsCalls (C.moments self.old.clock) (C.moments self.new.clock))
            self.old.directory limit (vec_capacity response.old - vec_len response.old) request.now request.now.token
            response.new.items self.new.directory }
        ensures capacity { vec_capacity response.old ≤ vec_capacity response.new }
    {
        let token = request.token().to_token();
        self.answer(request, &token, limit, response);
    }

    #[tactic(auto, unfolding(coap_server_engine::specs::values::Exchanges::AnswersMore))]
    fn next_response(&mut self, _response: &mut Vec<u8>) -> Option<ConnId> {
        None
    }

    fn responded(&mut self, _to: ConnId, _outcome: Result<Queued, ResponseFault>) {}

    fn wait(&self, _now: u64) -> Wait {
        Wait::Forever
    }

    fn gone(&mut self, _from: ConnId) {}
}
