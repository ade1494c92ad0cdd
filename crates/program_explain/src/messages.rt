//! The messages of a connection.

ghost use Rattle.std.specs.Prelude.{◌≡◌, false, length, is_err, IfOk, OnOk};
ghost use Rattle.coap_log.specs.Taps.{new_tap};
ghost use Rattle.coap_log.specs.declared.tap.TheConstants.{DESCRIBED};
ghost use Rattle.program_explain.specs.Shown.{IsShown};
ghost use Rattle.program_explain.specs.Printed.{Prints};
ghost use Rattle.program_explain.specs.Messages as spec;

use crate::layout::{Way, message_line, unfinished_line};
use crate::printer::{OutputLine, Printer};
use coap_io::{Outlet, WriteFailed};
use coap_log::{DESCRIBED, Tap};
use coap_model::ConnId;
use std::alloc::{AllocError, Global};

/// Messages of a connection, in both directions.
#[derive(Drop)]
pub(crate) struct Followed {
    /// Bytes that the server received.
    pub(crate) incoming: Tap,
    /// Bytes that the server sent.
    pub(crate) outgoing: Tap,
}

impl Followed {
    /// Creates the messages of a new connection.
    ///
    /// # Errors
    ///
    /// Returns `AllocError` if allocation fails.
    pub(crate) fn new(alloc: Global) -> Result<Followed, AllocError>
        ensures { IfOk result (λ f. f ≡ record { incoming = new_tap DESCRIBED; outgoing = new_tap DESCRIBED }) }
    {
        Ok(Followed {
            incoming: Tap::new(alloc, DESCRIBED)?,
            outgoing: Tap::new(alloc, DESCRIBED)?,
        })
    }
}

/// Returns `true` if a tap has bytes of a message whose last byte is missing.
pub(crate) fn is_within(tap: &Tap) -> bool
    ensures { result ≡ spec.is_within tap.now }
{
    !tap.is_whole() && tap.size() > 0
}

/// Passes bytes of one direction of a connection to its tap, and prints a line for each message that ends with them.
///
/// # Errors
///
/// - `WriteFailed`: a write failed.
fn show_messages<O: Outlet>(
    printer: &mut Printer<O>,
    id: ConnId,
    way: Way,
    tap: &mut Tap,
    bytes: &[u8],
) -> Result<(), WriteFailed>
    requires { O.is_failed printer.old.out ≡ false }
    ensures tap { OnOk result (tap.new ≡ (spec.passed (length bytes.now) id way tap.old bytes.now).tap) }
    ensures prints { OnOk result (Prints O.written printer.old printer.new
        (spec.passed (length bytes.now) id way tap.old bytes.now).lines) }
    ensures shown { IsShown (O.written printer.old.out) → IsShown (O.written printer.new.out) }
    ensures failure { O.is_failed printer.new.out ≡ is_err result }
{
    let mut left = bytes;
    while !left.is_empty() {
        let taken = tap.take(left);
        if taken == 0 {
            return Ok(());
        }
        left = &left[taken..];
        printer.show_line(&whole_line(id, way, tap))?;
    }
    Ok(())
}

/// Returns the line of the present message of a tap, if it is whole.
fn whole_line(id: ConnId, way: Way, tap: &Tap) -> Option<OutputLine>
    ensures { result ≡ spec.whole_line id way tap.now }
{
    if tap.is_whole() {
        Some(OutputLine::Text(Some(id), message_line(id, way, tap)))
    } else {
        None
    }
}

/// Returns the line about the message whose last byte is missing, if there is one and `count` bytes passed
/// with the event.
fn rest_line(id: ConnId, way: Way, tap: &Tap, count: usize) -> Option<OutputLine>
    ensures { result ≡ spec.rest_line id way tap.now count }
{
    if count > 0 && is_within(tap) {
        Some(OutputLine::Text(Some(id), unfinished_line(id, way, tap.size())))
    } else {
        None
    }
}

/// Passes the bytes of an event, in two parts, to the tap of their direction. Prints the lines of the messages.
///
/// # Errors
///
/// - `WriteFailed`: a write failed.
pub(crate) fn show_parts<O: Outlet>(
    printer: &mut Printer<O>,
    id: ConnId,
    way: Way,
    tap: &mut Tap,
    first: &[u8],
    second: &[u8],
) -> Result<(), WriteFailed>
    requires { O.is_failed printer.old.out ≡ false }
    ensures tap { OnOk result (tap.new ≡ (spec.passed_parts id way tap.old first.now second.now).tap) }
    ensures prints { OnOk result (Prints O.written printer.old printer.new
        (spec.passed_parts id way tap.old first.now second.now).lines) }
    ensures shown { IsShown (O.written printer.old.out) → IsShown (O.written printer.new.out) }
    ensures failure { O.is_failed printer.new.out ≡ is_err result }
{
    show_messages(printer, id, way, tap, first)?;
    show_messages(printer, id, way, tap, second)?;
    printer.show_line(&rest_line(id, way, tap, first.len() + second.len()))
}
