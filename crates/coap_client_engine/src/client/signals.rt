//! The Release of a client, and its announcements of another Max-Message-Size.

use super::Client;
use coap_conn::{Phase, SendFault};
use coap_wire::LARGEST_MESSAGE;
use thiserror::Error;

/// Error of `Client::announce`. The discriminant is its number.
#[derive(Clone, Copy, Debug, PartialEq, Eq, Error)]
pub enum ClientAnnounceFault {
    /// The connection is not open.
    #[error("the connection is not open")]
    NotOpen = 1,
    /// The size is below the one announced last.
    #[error("size is below the one announced last")]
    Lower = 2,
    /// The size exceeds 1,048,576 bytes.
    #[error("size exceeds 1,048,576 bytes")]
    TooLarge = 3,
    /// The queue has no room for a message of maximum size.
    #[error("no room in the queue")]
    NoRoom = 4,
    /// The CSM exceeds the Max-Message-Size of the peer.
    #[error("message exceeds the Max-Message-Size of the peer")]
    PeerTooSmall = 5,
    /// Allocation failed for the buffer of a larger message.
    #[error("out of memory")]
    Memory = 6,
}

const _: () = prove!(ClientAnnounceFault::NotOpen as u8 == 1);

const _: () = prove!(ClientAnnounceFault::Lower as u8 == 2);

const _: () = prove!(ClientAnnounceFault::TooLarge as u8 == 3);

const _: () = prove!(ClientAnnounceFault::NoRoom as u8 == 4);

const _: () = prove!(ClientAnnounceFault::PeerTooSmall as u8 == 5);

const _: () = prove!(ClientAnnounceFault::Memory as u8 == 6);

impl Client {
    ghost use Rattle.std.specs.Prelude.{◌≡◌, ◌++◌, ◌∷◌, ℕ, List, [], OnOk, OnErr};
    ghost use Rattle.coap_client_engine.specs.Prelude.{RefusedBy, release_refusal, client_released, ClientCall};
    ghost use Rattle.coap_client_engine.specs.Prelude.{ClientShows, Released, IsAnnounceAnswer, client_announced};
    ghost use Rattle.coap_client_engine.specs.Prelude.{Announced};

    /// Queues a Release and stops the connection (RFC 8323 section 5.5).
    ///
    /// Everything outstanding ends without an event, and bytes of an unfinished message are dropped. The client accepts
    /// no more bytes. A caller that wants the responses to its requests waits for them first.
    ///
    /// # Errors
    ///
    /// In this order, and nothing has changed then:
    ///
    /// - `NotOpen`: the connection is not open.
    /// - `NoRoom`: fewer than 2 bytes are free in the queue.
    /// - `PeerTooSmall`: the peer accepts fewer than 2 bytes.
    pub fn release(&mut self) -> Result<(), SendFault>
        ensures answer { RefusedBy result (release_refusal self.old.link) }
        ensures after { OnOk result (self.new ≡ client_released self.old) }
        ensures shows { OnOk result ((tokens : ℕ) (calls : List ClientCall) → ClientShows self.old tokens calls →
            ClientShows self.new tokens (calls ++ Released ∷ [])) }
        ensures err { OnErr result (self.new ≡ self.old) }
    {
        self.link.release()?;
        self.framer.clear();
        Ok(())
    }

    /// Announces `size` as the largest message accepted from now on (RFC 8323 section 5.3.1).
    ///
    /// Allocates the memory for a message of that size, in bytes, and queues a CSM. The current size may be announced
    /// again. Bytes of an unfinished message stay. The new size applies to that message if its length was not received
    /// in full.
    ///
    /// # Errors
    ///
    /// In this order, and nothing has changed then:
    ///
    /// - `NotOpen`: the connection is not open.
    /// - `Lower`: the size is below the current one.
    /// - `TooLarge`: the size is above 1,048,576 bytes.
    /// - `NoRoom`: the queue has no room for a message of maximum size.
    /// - `PeerTooSmall`: the CSM exceeds the limit of the peer or the local limit.
    /// - `Memory`: the size is above the current one, and allocation fails.
    pub fn announce(&mut self, size: u32) -> Result<(), ClientAnnounceFault>
        ensures answer { IsAnnounceAnswer self.old.link size result }
        ensures after { OnOk result (self.new ≡ client_announced self.old size) }
        ensures shows { OnOk result ((tokens : ℕ) (calls : List ClientCall) → ClientShows self.old tokens calls →
            ClientShows self.new tokens (calls ++ Announced size ∷ [])) }
        ensures err { OnErr result (self.new ≡ self.old) }
    {
        let Phase::Open = self.link.phase() else {
            return Err(ClientAnnounceFault::NotOpen);
        };
        if (size as usize) < self.link.own_max() {
            return Err(ClientAnnounceFault::Lower);
        }
        if size as usize > LARGEST_MESSAGE {
            return Err(ClientAnnounceFault::TooLarge);
        }
        if !self.link.ready() {
            return Err(ClientAnnounceFault::NoRoom);
        }
        if !self.link.takes_announcement(size) {
            return Err(ClientAnnounceFault::PeerTooSmall);
        }
        let Ok(()) = self.framer.raise(size as usize) else {
            return Err(ClientAnnounceFault::Memory);
        };
        self.link.announce(size);
        Ok(())
    }
}
