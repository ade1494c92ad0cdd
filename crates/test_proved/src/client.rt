//! Runs of `run_client` and `run_to_end` over recording devices, for which their contracts are about the records.

ghost use Rattle.std.specs.Prelude.{◌≡◌, ◌++◌, ◌∷◌, false, [], Some, IfOk};
ghost use Rattle.coap_client.specs.ClientRun.{IsClientRun, IsExplainedRun, records};

use crate::devices::RecordingOutlet;
use coap_client::{
    Cause, ClientFault, ClientPlan, Line, Refusal, RequestFault, RunEnd, client_words, explain,
    run_client, run_to_end,
};
use coap_serve::{Clock, Got, Wire};
use std::alloc::Global;
use std::process::Abort;

/// Connection that records the bytes read, the bytes written and the results of its calls. A read returns at most
/// `most` bytes, and `Later` if none is left. A write accepts all bytes.
#[derive(Drop)]
struct ScriptedClientWire<'a, A: Abort> {
    rt: &'a A,
    rest: &'a [u8],
    most: usize,
    given: Vec<u8>,
    written: Vec<u8>,
    answers: Vec<Got>,
}

impl<A: Abort> ScriptedClientWire<'_, A> {
    /// Records the result of a call, and returns it.
    fn answer(&mut self, got: Got) -> Got
        ensures got { result ≡ got }
        ensures answers { self.new.answers.items ≡ self.old.answers.items ++ got ∷ [] }
        ensures kept { (self.new.given ≡ self.old.given) × (self.new.written ≡ self.old.written) }
    {
        self.answers.push(got).expect(self.rt, "room for an answer");
        got
    }
}

impl<A: Abort> Wire for ScriptedClientWire<'_, A> {
    ghost given = { λ wire. Some wire.given.items };

    ghost written = { λ wire. Some wire.written.items };

    ghost answers = { λ wire. Some wire.answers.items };

    fn read(&mut self, buffer: &mut [u8]) -> Got {
        let count = self.rest.len().min(buffer.len()).min(self.most);
        if count == 0 {
            return self.answer(Got::Later);
        }
        let front = &self.rest[..count];
        self.given
            .extend_from_slice(front)
            .expect(self.rt, "room for what is read");
        buffer[..count].copy_from_slice(front);
        self.rest = &self.rest[count..];
        self.answer(Got::Bytes(count))
    }

    fn write(&mut self, bytes: &[u8]) -> Got {
        if bytes.is_empty() {
            return self.answer(Got::Later);
        }
        self.written
            .extend_from_slice(bytes)
            .expect(self.rt, "room for what is written");
        self.answer(Got::Bytes(bytes.len()))
    }
}

/// Clock that records the times that it returned. Each is one second after the one before.
#[derive(Drop)]
struct Seconds<'a, A: Abort> {
    rt: &'a A,
    next: u64,
    moments: Vec<u64>,
}

impl<A: Abort> Clock for Seconds<'_, A> {
    ghost moments = { λ clock. Some clock.moments.items };

    fn now(&mut self) -> u64 {
        let moment = self.next;
        self.moments
            .push(moment)
            .expect(self.rt, "room for a moment");
        self.next = moment.saturating_add(1);
        moment
    }
}

/// Runs a client over recording devices.
fn run_recorded<A: Abort>(
    alloc: Global,
    wire: &mut ScriptedClientWire<A>,
    clock: &mut Seconds<A>,
    out: &mut RecordingOutlet,
    err: &mut RecordingOutlet,
    plan: &ClientPlan,
) -> Result<u8, ClientFault>
    requires out_works { out.old.failed ≡ false }
    requires err_works { err.old.failed ≡ false }
    requires nothing_passed { (wire.old.given.items ≡ []) × (wire.old.written.items ≡ [])
        × (wire.old.answers.items ≡ []) }
    requires no_moment { clock.old.moments.items ≡ [] }
    requires devices_are_new { (out.old.bytes.items ≡ []) × (err.old.bytes.items ≡ []) }
    ensures { IfOk result (IsClientRun plan.now (records (Some []) (Some []) (Some []) (Some []) (Some []) (Some []))
        (records (Some wire.new.given.items) (Some wire.new.written.items) (Some wire.new.answers.items)
        (Some clock.new.moments.items) (Some out.new.bytes.items) (Some err.new.bytes.items))) }
{
    run_client(alloc, wire, clock, out, err, plan)
}

/// Runs a client over recording devices, and returns the end of the run.
fn run_explained<A: Abort>(
    alloc: Global,
    wire: &mut ScriptedClientWire<A>,
    clock: &mut Seconds<A>,
    out: &mut RecordingOutlet,
    err: &mut RecordingOutlet,
    plan: &ClientPlan,
) -> Result<RunEnd, ClientFault>
    requires out_works { out.old.failed ≡ false }
    requires err_works { err.old.failed ≡ false }
    requires nothing_passed { (wire.old.given.items ≡ []) × (wire.old.written.items ≡ [])
        × (wire.old.answers.items ≡ []) }
    requires no_moment { clock.old.moments.items ≡ [] }
    requires devices_are_new { (out.old.bytes.items ≡ []) × (err.old.bytes.items ≡ []) }
    ensures { IfOk result (IsExplainedRun plan.now (records (Some []) (Some []) (Some []) (Some []) (Some []) (Some []))
        (records (Some wire.new.given.items) (Some wire.new.written.items) (Some wire.new.answers.items)
        (Some clock.new.moments.items) (Some out.new.bytes.items) (Some err.new.bytes.items))) }
{
    run_to_end(alloc, wire, clock, out, err, plan)
}

#[test]
fn explains_a_request_that_the_peer_does_not_accept(rt: HostRuntime) {
    let plan = client_words(rt.alloc(), &["coap+tcp://127.0.0.1/"]).expect(&rt, "a plan");
    // A CSM with a Max-Message-Size of 2 bytes.
    let mut wire = ScriptedClientWire {
        rt: &rt,
        rest: b"\x20\xe1\x21\x02",
        most: 9,
        given: Vec::new(rt.alloc()),
        written: Vec::new(rt.alloc()),
        answers: Vec::new(rt.alloc()),
    };
    let mut clock = Seconds {
        rt: &rt,
        next: 7,
        moments: Vec::new(rt.alloc()),
    };
    let mut out = RecordingOutlet::new(rt.alloc(), usize::MAX, usize::MAX);
    let mut err = RecordingOutlet::new(rt.alloc(), usize::MAX, usize::MAX);
    let end = run_explained(rt.alloc(), &mut wire, &mut clock, &mut out, &mut err, &plan);
    let cause = Cause::Request(Refusal {
        fault: RequestFault::TooBig,
        size: Some(3),
        peer_max: 2,
    });
    let wanted = RunEnd {
        status: 3,
        cause: Some(cause),
    };
    assert!(&rt; end == Ok(wanted));
    assert!(&rt; err.bytes.as_slice() == b"request fault 3\n".as_slice());
    let mut line = Line::new();
    explain(&mut line, &cause);
    assert!(&rt; line.as_str() == "the request has 3 bytes; the peer accepts 2");
}

#[test]
fn runs_a_client_over_recording_devices(rt: HostRuntime) {
    let plan = client_words(rt.alloc(), &["coap+tcp://127.0.0.1/"]).expect(&rt, "a plan");
    let mut wire = ScriptedClientWire {
        rt: &rt,
        rest: b"\x00\xe1\x31\x45\x01\xffhi",
        most: 2,
        given: Vec::new(rt.alloc()),
        written: Vec::new(rt.alloc()),
        answers: Vec::new(rt.alloc()),
    };
    let mut clock = Seconds {
        rt: &rt,
        next: 7,
        moments: Vec::new(rt.alloc()),
    };
    let mut out = RecordingOutlet::new(rt.alloc(), usize::MAX, usize::MAX);
    let mut err = RecordingOutlet::new(rt.alloc(), usize::MAX, usize::MAX);
    let result = run_recorded(rt.alloc(), &mut wire, &mut clock, &mut out, &mut err, &plan);
    assert!(&rt; result == Ok(0));
    assert!(&rt; wire.given.as_slice() == b"\x00\xe1\x31\x45\x01\xffhi".as_slice());
    assert!(&rt;
        wire.written.as_slice() == b"\x60\xe1\x23\x01\x00\x00\x41\x40\x01\x01\x01".as_slice()
    );
    let two = Got::Bytes(2);
    assert!(&rt; wire.answers.as_slice() == [two, Got::Bytes(11), two, two, two].as_slice());
    assert!(&rt; clock.moments.as_slice() == [7, 8, 9, 10, 11].as_slice());
    assert!(&rt; out.bytes.as_slice() == b"hi".as_slice());
    assert!(&rt; err.bytes.is_empty());
}
