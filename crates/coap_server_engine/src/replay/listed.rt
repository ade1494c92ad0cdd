//! The takes of an `in` event, with a line for each request that they hand to the application.

ghost use Rattle.std.specs.Prelude.{◌≡◌, ◌≤◌, ◌++◌, ◌⊎◌, IfOk, OnOk, OnErr, is_some, length};
ghost use Rattle.std.specs.Prelude.{option_copied, take, true};
ghost use Rattle.coap_server_engine.specs.Prelude.{LiesAt, ShowsMore, Took, count_taken, server_taken, handed_frame};
ghost use Rattle.coap_server_engine.specs.Prelude.{in_result, took, where_there, session_of, request_text};
ghost use Rattle.coap_server_engine.specs.Prelude.{request_lines};
ghost use Rattle.coap_server_engine.specs.Prelude.{ShowsPart, In, IsTakeRefused, IsLineRefused, IsUnfinishedIn};

use crate::index_set::IndexSet;
use crate::server::{ConnIndex, Server};
use coap_model::{ConnId, TakeFault};
use coap_script::append_request_line;
use std::alloc::AllocError;

impl Server {
    /// Accepts bytes as `take_all` does, on the connection at an index. `id` is its id. Appends the line of each
    /// request that is handed to the application to `requests`.
    ///
    /// # Errors
    ///
    /// Returns `AllocError` if allocation fails, in a take or for the line of a request. The messages before the
    /// failure were processed then, and the request as well.
    ///
    /// # Preconditions
    ///
    /// The connection with the id is at the index, as `index_of` returned it.
    pub(super) fn take_all_listed(
        &mut self,
        at: usize,
        id: ConnId,
        bytes: &[u8],
        requests: &mut Vec<u8>,
    ) -> Result<usize, AllocError>
        requires { LiesAt id at self.old.sessions }
        ensures count { IfOk result (λ n. n ≡ (in_result self.old id bytes.now).count) }
        ensures after { OnOk result (self.new ≡ (in_result self.old id bytes.now).server) }
        ensures shows { OnOk result (ShowsMore self.old self.new (took self.old id bytes.now)) }
        ensures listed { OnOk result (requests.new.items
            ≡ requests.old.items ++ request_lines self.old id bytes.now) }
        ensures err { OnErr result (IsUnfinishedIn self.old id bytes.now self.new) }
        ensures shows_err { OnErr result (ShowsPart self.old (In id bytes.now) self.new) }
    {
        let mut taken = 0;
        while taken < bytes.len() {
            let count = self.take_listed(at, id, &bytes[taken..], requests)?;
            if count == 0 {
                return Ok(taken);
            }
            taken += count;
        }
        Ok(taken)
    }

    /// Accepts bytes once, of the remaining bytes `rest`, and returns their number. Appends the line of the request
    /// that is handed to the application to `requests`.
    ///
    /// # Errors
    ///
    /// Returns `AllocError` if allocation fails in the take, or for the line after it.
    fn take_listed(
        &mut self,
        at: usize,
        id: ConnId,
        rest: &[u8],
        requests: &mut Vec<u8>,
    ) -> Result<usize, AllocError>
        requires { LiesAt id at self.old.sessions }
        ensures within { IfOk result (λ n. n ≤ length rest.now) }
        ensures count { IfOk result (λ n. n ≡ count_taken self.old id rest.now) }
        ensures after { OnOk result (self.new ≡ server_taken self.old id rest.now) }
        ensures shows { OnOk result (ShowsMore self.old self.new (where_there (session_of id self.old.sessions)
            (λ s. Took id (take (count_taken self.old id rest.now) rest.now)))) }
        ensures listed { OnOk result (requests.new.items
            ≡ requests.old.items ++ request_text id (handed_frame self.old id rest.now)) }
        ensures lies { OnOk result (LiesAt id at self.new.sessions) }
        ensures err { OnErr result (IsTakeRefused self.old id rest.now self.new
            ⊎ IsLineRefused self.old id rest.now self.new) }
    {
        let mut affected = IndexSet::empty();
        match self.take_request_at(ConnIndex { id, at }, rest, &mut affected) {
            Ok(taken) => {
                let count = taken.taken.bytes;
                list_request(taken.frame, id, requests)?;
                Ok(count)
            }
            Err(TakeFault::NoSuch) => unreachable!(),
            Err(TakeFault::Memory { .. }) => Err(AllocError),
        }
    }
}

/// Appends the line of a request, if there is one.
fn list_request(frame: Option<&[u8]>, id: ConnId, requests: &mut Vec<u8>) -> Result<(), AllocError>
    ensures ok { OnOk result (requests.new.items ≡ requests.old.items ++ request_text id (option_copied frame.entry)) }
    ensures err { OnErr result (is_some (option_copied frame.entry) ≡ true) }
{
    match frame {
        Some(frame) => append_request_line(requests, id, frame),
        None => Ok(()),
    }
}
