//! Runs of `serve_one` over recording devices, for which its contract is about the records, and over a slice and a
//! vector.

ghost use Rattle.std.specs.Prelude.{◌≡◌, ◌+◌, ◌<◌, ◌^◌, false, [], map, vec_items};
ghost use Rattle.coap_serve.specs.streams.StdioRun.{IsStdioRun};

use crate::devices::{Pieces, RecordingOutlet};
use coap_serve::{Config, IoFault, Outlet, ReadSource, Report, Source, WriteOutlet, serve_one};
use std::alloc::Global;
use std::process::Abort;

/// Serves one connection over recording devices.
fn serve_recorded(
    alloc: Global,
    source: &mut Pieces,
    outlet: &mut RecordingOutlet,
    config: &Config,
) -> Result<Report, IoFault>
    requires source_works { source.old.failed ≡ false }
    requires outlet_works { outlet.old.failed ≡ false }
    requires nothing_given { source.old.given.items ≡ [] }
    requires nothing_written { outlet.old.bytes.items ≡ [] }
    requires id_left { config.now.starts.ids + 1 < 2 ^ 64 }
    ensures { IsStdioRun config.now (map vec_items source.new.given.items) outlet.new.bytes.items result }
{
    serve_one(alloc, source, outlet, config)
}

/// Serves a CSM and a Ping, with reads of at most two bytes and writes of at most four, and asserts which bytes were
/// written. The writes after the first `left` fail.
fn writes(rt: &(impl Abort + AllocGlobal), left: usize, wanted: &[u8]) -> Result<Report, IoFault> {
    let config = Config::builder().build().expect(rt, "a configuration");
    let input: &[u8] = b"\x00\xe1\x02\xe2\x01\x02";
    let mut source = Pieces::new(rt.alloc(), input, 2);
    let mut outlet = RecordingOutlet::new(rt.alloc(), 4, left);
    assert!(rt; config.starts().ids < u64::MAX);
    let result = serve_recorded(rt.alloc(), &mut source, &mut outlet, &config);
    assert!(rt; outlet.bytes.as_slice() == wanted);
    assert!(rt; !source.failed);
    assert!(rt; outlet.failed == (result == Err(IoFault::Write)));
    result
}

#[test]
fn serves_over_recording_devices(rt: HostRuntime) {
    let result = writes(
        &rt,
        usize::MAX,
        b"\x60\xe1\x23\x01\x00\x00\x41\x40\x02\xe3\x01\x02",
    );
    assert!(&rt;
        matches!(
            result,
            Ok(Report {
                read: 6,
                messages: 2,
                ..
            })
        )
    );
}

#[test]
fn serves_over_slices_and_vectors(rt: HostRuntime) {
    let input: &[u8] = b"\x00\xe1\x02\xe2\x01\x02";
    let mut source = ReadSource::new(input);
    let mut written = Vec::new(rt.alloc());
    let mut outlet = WriteOutlet::new(&mut written);
    let config = Config::builder().build().expect(&rt, "a configuration");
    assert!(&rt; config.starts().ids < u64::MAX);
    let result = serve_one(rt.alloc(), &mut source, &mut outlet, &config);
    assert!(&rt; !source.failed() && !outlet.failed());
    assert!(&rt;
        matches!(
            result,
            Ok(Report {
                read: 6,
                messages: 2,
                ..
            })
        )
    );
    assert!(&rt;
        written.as_slice() == b"\x60\xe1\x23\x01\x00\x00\x41\x40\x02\xe3\x01\x02".as_slice()
    );
}

#[test]
fn reports_written_before_fault(rt: HostRuntime) {
    let result = writes(&rt, 1, b"\x60\xe1\x23\x01");
    assert!(&rt; result == Err(IoFault::Write));
}
