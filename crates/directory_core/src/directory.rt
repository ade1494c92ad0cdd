//! `Directory`, which answers requests.

ghost use Rattle.std.specs.Prelude.{◌≡◌, ◌<◌, ◌^◌, IfOk, false, option_map};
ghost use Rattle.directory_core.specs.Prelude.{Replies, allocates, allocates_at, replying, registration_reply};
ghost use Rattle.directory_core.specs.Prelude.{location_reply, lookup_reply, at_time, new_directory};
ghost use Rattle.directory_core.specs.declared.route.Route.TheVariants as route;

use crate::conditions::conditions_hold;
use crate::refusal::Refusal;
use crate::reply::Reply;
use crate::requests::{look_up, register, update};
use crate::route::{Route, requested_route};
use coap_wire::MessageRef;
use directory_registry::{Listing, Registry};
use std::alloc::{AllocError, Global};
use std::marker::Model;

/// Resource directory (RFC 9176). Contracts see its registrations and the text of the last lookup.
#[derive(Drop)]
pub struct Directory {
    alloc: Global,
    registry: Registry,
    listing: Listing,
}

impl Model for Directory {
    ghost use Rattle.directory_core.specs.Replies.{DirectoryValue};

    ghost Value = { DirectoryValue };

    ghost view = { λ d. record { registry = d.registry; listing = d.listing } };
}

impl Directory {
    /// Creates a directory of at most `limit` registrations, whose lookups have at most `capacity` bytes.
    ///
    /// # Errors
    ///
    /// - `AllocError` if allocation fails.
    pub fn new(alloc: Global, limit: usize, capacity: usize) -> Result<Directory, AllocError>
        ensures { IfOk result (λ d. d ≡ new_directory limit capacity) }
    {
        Ok(Directory {
            alloc,
            listing: Listing::new(alloc, capacity)?,
            registry: Registry::new(alloc, limit),
        })
    }

    /// Returns the results of the last lookup, or `None` if they were too large.
    pub fn content(&self) -> Option<&[u8]>
        ensures { option_map (λ t. t.now) result ≡ self.now.listing.text }
    {
        self.listing.text()
    }

    /// Removes the registrations that have ended at the time `now`, in seconds, and answers a request. The results of a
    /// lookup have at most `limit` bytes.
    ///
    /// # Preconditions
    ///
    /// - The time is below 2^63.
    #[tactic(auto, unfolding(crate::specs::Replies::replying))]
    pub fn reply(&mut self, now: u64, limit: usize, request: &MessageRef) -> Reply
        requires { now < 2 ^ 63 }
        ensures { Replies (allocates self.old now request.now) (at_time self.old now) result self.new
            (replying self.old now limit request.now) }
    {
        self.registry.expire(now);
        match requested_route(request) {
            Route::Registrations => self.reply_to_registration(now, request),
            Route::Location(number) => self.reply_at_location(now, number, request),
            Route::Endpoints => self.reply_to_lookup(true, limit, request),
            Route::Resources => self.reply_to_lookup(false, limit, request),
            Route::Elsewhere => Reply::Refused(Refusal::Path),
        }
    }

    /// Answers a request at `/rd`.
    #[tactic(auto, unfolding(crate::specs::Replies::registration_reply))]
    fn reply_to_registration(&mut self, now: u64, request: &MessageRef) -> Reply
        requires { now < 2 ^ 63 }
        ensures { Replies (allocates_at self.old request.now route.Registrations) self.old result self.new
            (registration_reply self.old now request.now) }
    {
        if request.code().byte() != 2 {
            return Reply::Refused(Refusal::Method);
        }
        if !conditions_hold(request, true) {
            return Reply::Refused(Refusal::Condition);
        }
        match register(&mut self.registry, self.alloc, now, request) {
            Ok(number) => Reply::Created(number),
            Err(error) => error.reply(),
        }
    }

    /// Answers a request at a location.
    #[tactic(auto, unfolding(crate::specs::Replies::location_reply))]
    fn reply_at_location(&mut self, now: u64, number: u64, request: &MessageRef) -> Reply
        requires { now < 2 ^ 63 }
        ensures { Replies (allocates_at self.old request.now (route.Location number)) self.old result self.new
            (location_reply self.old now number request.now) }
    {
        let code = request.code().byte();
        if code != 2 && code != 4 {
            return Reply::Refused(Refusal::Method);
        }
        if !conditions_hold(request, self.registry.has(number)) {
            return Reply::Refused(Refusal::Condition);
        }
        if code == 2 {
            return match update(&mut self.registry, self.alloc, now, number, request) {
                Ok(()) => Reply::Changed,
                Err(error) => error.reply(),
            };
        }
        if self.registry.remove(number) {
            Reply::Deleted
        } else {
            Reply::Refused(Refusal::Path)
        }
    }

    /// Answers a request at a lookup: of endpoints, or of resources.
    #[tactic(auto, unfolding(crate::specs::Replies::lookup_reply))]
    fn reply_to_lookup(&mut self, endpoints: bool, limit: usize, request: &MessageRef) -> Reply
        ensures { Replies false self.old result self.new (lookup_reply self.old endpoints limit request.now) }
    {
        if request.code().byte() != 1 {
            return Reply::Refused(Refusal::Method);
        }
        if !conditions_hold(request, true) {
            return Reply::Refused(Refusal::Condition);
        }
        match look_up(&self.registry, &mut self.listing, endpoints, limit, request) {
            Ok(()) => Reply::Content,
            Err(refusal) => Reply::Refused(refusal),
        }
    }
}
