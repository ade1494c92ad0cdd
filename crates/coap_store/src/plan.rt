//! The plan for a request.

ghost use Rattle.std.specs.Prelude.{◌≡◌, ◌≢◌, ◌≤◌, true, [], Some, IfSome, length, option_map};
ghost use Rattle.coap_store.specs.Prelude.{bytes_in, change_value, planned_value, says, only, no_answer};
ghost use Rattle.coap_store.specs.Prelude.{changes as is_change, is_path, IsAtPath, IsNamedPath, path_or_root};
ghost use Rattle.coap_store.specs.Prelude.{location_in, bytes_of_uint};
ghost use Rattle.coap_wire.specs.Codes as code;

use crate::found::{Payload, PayloadText, RepresentationRef};
use crate::request::path_in;
use arrayvec::ArrayVec;
use coap_path::{PathKey, UriPath};
use coap_wire::{Body, Code, UintBytes, uint_bytes};
use std::marker::Model;

/// Change that a request makes.
#[derive(Drop)]
pub enum Change<'r> {
    /// No change.
    Nothing,
    /// Representation to be stored at a path, in place of the present one.
    Put {
        /// Path.
        path: PathKey,
        /// Content-Format, if there is one.
        format: Option<u16>,
        /// Bytes, which are borrowed from the request.
        bytes: &'r [u8],
    },
    /// Path of a resource to be removed.
    Delete(PathKey),
}

/// Change that a request makes, with the request's options, which have its path. So no key is moved with it.
#[derive(Drop)]
pub enum PlannedChange<'r> {
    /// No change.
    Nothing,
    /// Representation to be stored at the path, in place of the present one.
    Put {
        /// Options of the request.
        body: Body<'r>,
        /// Content-Format, if there is one.
        format: Option<u16>,
        /// Payload of the request.
        bytes: &'r [u8],
    },
    /// Removal of the resource at the path.
    Delete {
        /// Options of the request.
        body: Body<'r>,
    },
}

/// Effect of a request on the observers of its path (RFC 7641 sections 2, 3.6, 4.1).
///
/// A token names one request of its client. So the caller first removes an observer with the request's token, whatever
/// the effect is.
#[derive(Clone, Copy, PartialEq, Eq)]
pub enum Watch {
    /// No effect.
    Nothing,
    /// Registration of an observer with the request's token: a GET with Observe 0 of an observable resource, whose
    /// response is 2.05 or 2.03.
    Add,
    /// Removal of the observer with the request's token: a GET with Observe 1, whatever its response is.
    Drop,
}

/// Plan for a request: the response without its token, the change, the effect on the observers, and the delay.
///
/// A plan borrows bytes of the store and of the request. Contracts see an `Answer`. A plan is moved often, so its
/// fields are in the order of their sizes.
#[derive(Drop)]
pub struct Plan<'s, 'r> {
    payload: Payload<'s>,
    /// Text of the payload, if that is a number.
    text: PayloadText,
    change: PlannedChange<'r>,
    /// Number whose encoding is the ETag, if there is one.
    etag: Option<u64>,
    max_age: Option<u32>,
    size1: Option<u32>,
    /// Delay of the response in seconds, if there is one.
    hold: Option<u32>,
    format: Option<u16>,
    code: Code,
    /// `true` if the response has Location-Path options with the path of the change.
    sets_location: bool,
    watch: Watch,
}

impl<'s, 'r> Model for Plan<'s, 'r> {
    ghost use Rattle.coap_store.specs.Answer.{Answer};

    ghost Value = { Answer };

    ghost use Rattle.coap_store.specs.PlanAnswerViews.{plan_answer, is_plan};

    ghost view = { plan_answer };

    ghost invariant = { is_plan };
}

impl<'s, 'r> Plan<'s, 'r> {
    /// Creates a plan that answers no request yet: code 0.00 and nothing else.
    pub fn new() -> Plan<'s, 'r>
        ensures { result ≡ no_answer }
    {
        Plan {
            code: Code::EMPTY,
            etag: None,
            format: None,
            max_age: None,
            sets_location: false,
            size1: None,
            payload: Payload::Stored(&[]),
            text: ArrayVec::new(),
            change: PlannedChange::Nothing,
            watch: Watch::Nothing,
            hold: None,
        }
    }

    /// Creates a plan with this code and nothing else.
    pub(crate) fn of_code(code: Code) -> Plan<'s, 'r>
        ensures { result ≡ says (only code) }
    {
        let mut plan = Plan::new();
        plan.only(code);
        plan
    }

    /// Sets the code of a new plan, and nothing else.
    pub(crate) fn only(&mut self, code: Code)
        requires { self.old ≡ no_answer }
        ensures { self.new ≡ says (only code) }
    {
        self.code = code;
    }

    /// Sets 2.03 and an ETag in a new plan, without a change (RFC 7252 section 5.9.1.3).
    pub(crate) fn valid(&mut self, etag: Option<u64>, watch: Watch)
        requires { self.old ≡ no_answer }
        ensures { self.new
            ≡ record (says (record (only code.valid) { etag = option_map bytes_of_uint etag })) { watch = watch } }
    {
        self.code = Code::VALID;
        self.etag = etag;
        self.watch = watch;
    }

    /// Sets 2.05 and a representation in a new plan, without a change (RFC 7252 section 5.9.1.5).
    pub(crate) fn content(
        &mut self,
        etag: Option<u64>,
        found: RepresentationRef<'s>,
        max_age: Option<u32>,
        watch: Watch,
    )
        requires { self.old ≡ no_answer }
        ensures { self.new
            ≡ record (says (record (only code.content) {
              etag = option_map bytes_of_uint etag;
              format = found.entry.format;
              max_age = max_age;
              payload = bytes_in
                  found.entry.bytes;
            })) { watch = watch } }
    {
        self.code = Code::CONTENT;
        self.etag = etag;
        self.format = found.format;
        self.max_age = max_age;
        self.payload = found.bytes;
        if let Payload::Decimal(_) = found.bytes {
            self.text = found.bytes.text();
        }
        self.watch = watch;
    }

    /// Sets 4.13 and Size1 in a new plan, the maximum size of a representation in bytes (RFC 7252 section 5.9.2.9).
    pub(crate) fn too_large(&mut self, greatest: u32)
        requires { self.old ≡ no_answer }
        ensures { self.new ≡ says (record (only code.request_entity_too_large) { size1 = Some greatest }) }
    {
        self.code = Code::REQUEST_ENTITY_TOO_LARGE;
        self.size1 = Some(greatest);
    }

    /// Sets a code and a change in a new plan. If `sets_location` is `true`, the response has the path of a stored
    /// representation.
    pub(crate) fn change_by(&mut self, code: Code, sets_location: bool, change: PlannedChange<'r>)
        requires path { IsAtPath change }
        requires named { IsNamedPath sets_location change }
        requires fresh { self.old ≡ no_answer }
        ensures { self.new
            ≡ record (says (record (only code) { location = location_in sets_location (planned_value change.entry) }))
            { change = planned_value change.entry } }
    {
        self.code = code;
        self.sets_location = sets_location;
        self.change = change;
    }

    /// Sets the effect on the observers.
    pub(crate) fn set_watch(&mut self, watch: Watch)
        ensures { self.new ≡ record self.old { watch = watch } }
    {
        self.watch = watch;
    }

    /// Delays the response by this number of seconds.
    pub(crate) fn delay(&mut self, seconds: u32)
        ensures { self.new ≡ record self.old { hold = Some seconds } }
    {
        self.hold = Some(seconds);
    }

    /// Returns the code of the response.
    pub fn code(&self) -> Code
        ensures { result ≡ self.now.response.code }
    {
        self.code
    }

    /// Returns the value of the ETag, at most 8 bytes, if there is one (RFC 7252 section 5.10.6).
    pub fn etag(&self) -> Option<UintBytes>
        ensures value { option_map (λ etag. etag.items) result ≡ self.now.response.etag }
        ensures short { IfSome result (λ etag. length etag.items ≤ 8) }
    {
        let number = self.etag?;
        Some(uint_bytes(number))
    }

    /// Returns the number whose shortest encoding is the ETag, if there is one.
    pub fn etag_number(&self) -> Option<u64>
        ensures { option_map bytes_of_uint result ≡ self.now.response.etag }
    {
        self.etag
    }

    /// Returns the Content-Format, if there is one (RFC 7252 section 5.10.3).
    pub fn format(&self) -> Option<u16>
        ensures { result ≡ self.now.response.format }
    {
        self.format
    }

    /// Returns the Max-Age in seconds, if there is one (RFC 7252 section 5.10.5).
    pub fn max_age(&self) -> Option<u32>
        ensures { result ≡ self.now.response.max_age }
    {
        self.max_age
    }

    /// Returns the path for Location-Path options, one for each segment, if there is one (RFC 7252 section 5.10.7).
    pub fn location(&self) -> Option<UriPath<'r>>
        ensures value { path_or_root result ≡ self.now.response.location }
        ensures path { IfSome result (λ path. is_path path ≡ true) }
        ensures some { IfSome result (λ path. path ≢ []) }
    {
        if !self.sets_location {
            return None;
        }
        match &self.change {
            PlannedChange::Put { body, .. } => Some(UriPath::of(body)),
            _ => None,
        }
    }

    /// Returns Size1, the maximum size of a representation in bytes, if there is one (RFC 7252 section 5.10.9).
    pub fn size1(&self) -> Option<u32>
        ensures { result ≡ self.now.response.size1 }
    {
        self.size1
    }

    /// Returns the payload, which is empty if there is none.
    pub fn payload(&self) -> &[u8]
        ensures { result.now ≡ self.now.response.payload }
    {
        self.payload.bytes(&self.text)
    }

    /// Returns the change that the request makes. Its key is made by this call, not with the plan.
    pub fn change(&self) -> Change<'r>
        ensures { change_value result ≡ self.now.change }
    {
        match &self.change {
            PlannedChange::Nothing => Change::Nothing,
            PlannedChange::Put {
                body,
                format,
                bytes,
            } => Change::Put {
                path: path_in(body),
                format: *format,
                bytes,
            },
            PlannedChange::Delete { body } => Change::Delete(path_in(body)),
        }
    }

    /// Returns `true` if the request makes a change.
    pub fn changes(&self) -> bool
        ensures { result ≡ is_change self.now.change }
    {
        match &self.change {
            PlannedChange::Nothing => false,
            _ => true,
        }
    }

    /// Returns the effect of the request on the observers.
    pub fn watch(&self) -> Watch
        ensures { result ≡ self.now.watch }
    {
        self.watch
    }

    /// Returns the delay of a separate response in seconds, at most 3,600, if there is one. No RFC defines the delay.
    pub fn hold(&self) -> Option<u32>
        ensures seconds { result ≡ self.now.hold }
    {
        self.hold
    }

    /// Returns the change with the code of the response and its path, which are all that the plan has if it makes a
    /// change. They borrow from the request alone.
    pub fn into_change(self) -> ChangePlan<'r>
        ensures { result ≡ record (says (record (only self.entry.response.code) {
          location = self.entry.response.location;
        })) { change = self.entry.change } }
    {
        ChangePlan {
            change: self.change,
            code: self.code,
            sets_location: self.sets_location,
        }
    }
}

/// Plan for a request that makes a change: the code of the response, its path and the change. Contracts
/// see an `Answer`.
#[derive(Drop)]
pub struct ChangePlan<'r> {
    change: PlannedChange<'r>,
    code: Code,
    /// `true` if the response has Location-Path options with the path of the change.
    sets_location: bool,
}

impl<'r> Model for ChangePlan<'r> {
    ghost use Rattle.coap_store.specs.Answer.{Answer};

    ghost Value = { Answer };

    ghost use Rattle.coap_store.specs.ChangePlanViews.{change_answer, is_change_plan};

    ghost view = { change_answer };

    ghost invariant = { is_change_plan };
}

impl<'r> ChangePlan<'r> {
    /// Returns the code of the response, which has no more than this and a path.
    pub fn code(&self) -> Code
        ensures code { result ≡ self.now.response.code }
        ensures plain { self.now.response ≡ record (only result) { location = self.now.response.location } }
    {
        self.code
    }

    /// Returns the path for Location-Path options, as `Plan::location` does.
    pub fn location(&self) -> Option<UriPath<'r>>
        ensures value { path_or_root result ≡ self.now.response.location }
        ensures path { IfSome result (λ path. is_path path ≡ true) }
        ensures some { IfSome result (λ path. path ≢ []) }
    {
        if !self.sets_location {
            return None;
        }
        match &self.change {
            PlannedChange::Put { body, .. } => Some(UriPath::of(body)),
            _ => None,
        }
    }

    /// Returns the change that the request makes.
    pub fn change(&self) -> &PlannedChange<'r>
        ensures { planned_value result.now ≡ self.now.change }
    {
        &self.change
    }
}
