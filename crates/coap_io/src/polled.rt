//! `Polled`, a door over a listener that hands out connections but cannot wait for them.

ghost use Rattle.std.specs.Prelude.{Some, true};

use crate::wire::{Door, Got, Ready, Wait, Wire};

/// Listener that cannot wait: hands out wires, one for each connection that a peer opens. A `Wires` does not know which
/// of them are ready. `Polled` makes a door of it.
pub trait Wires {
    /// Type of the wires that it hands out.
    type Wire: Wire + Drop;

    /// Returns the next wire, if a peer has opened a connection that was not handed out yet. Never blocks.
    fn next(&mut self) -> Option<Self::Wire>;
}

/// Wire that always reports that it is ready, since its readiness is unknown. So its reads and writes are always tried.
/// `Tried` records what the inner wire records.
#[derive(Drop)]
pub struct Tried<W>(pub W);

impl<W: Wire> Wire for Tried<W> {
    ghost given = { λ wire. W.given wire.0 };

    ghost written = { λ wire. W.written wire.0 };

    ghost answers = { λ wire. W.answers wire.0 };

    ghost rooms = { λ wire. W.rooms wire.0 };

    fn read(&mut self, buffer: &mut [u8]) -> Got {
        self.0.read(buffer)
    }

    fn write(&mut self, bytes: &[u8]) -> Got {
        self.0.write(bytes)
    }
}

impl<W> Ready for Tried<W> {
    ghost readable = { λ _. Some true };

    ghost writable = { λ _. Some true };

    fn may_read(&self) -> bool {
        true
    }

    fn may_write(&self) -> bool {
        true
    }
}

/// Door over a listener that cannot wait, so that `wait` returns at once. A server with such a door keeps a processor
/// busy all the time. A transport that can wait has a `Door` of its own. `Polled` records no calls, so no clause states
/// which connections it hands out.
#[derive(Drop)]
pub struct Polled<D>(pub D);

impl<D: Wires> Door for Polled<D> {
    type Wire = Tried<D::Wire>;

    fn next(&mut self) -> Option<Tried<D::Wire>> {
        match self.0.next() {
            Some(wire) => Some(Tried(wire)),
            None => None,
        }
    }

    fn wait(&mut self, _wait: Wait, _opens: bool) {}

    fn closed(&mut self, _wire: Tried<D::Wire>) {}
}
