//! The entries of the application.

ghost use Rattle.std.specs.Prelude.{◌≡◌, ◌≤◌, ◌==◌, [], IfOk, OnOk, OnErr, Some, None, length, option_copied};
ghost use Rattle.std.specs.Prelude.{if◌then◌else◌};
ghost use Rattle.coap_path.specs.Prelude.{AreEntries, RefusedBy, RefusedOrMemory, entry_refusal, with_entry};
ghost use Rattle.coap_path.specs.Prelude.{entry_for, is_answered, has_prefix as is_prefix, segment_list};
ghost use Rattle.coap_path.specs.Prelude.{longer_entry, begins_with};

use crate::attributes::are_attributes;
use crate::entry::ApplicationEntry;
use crate::fault::ApplicationFault;
use crate::methods::{are_methods, has_method};
use crate::path::PathKey;
use crate::path_start::{begins, first_segments, kind_of, segment_count};
use crate::uri_path::UriPath;
use coap_wire::Code;
use std::alloc::{AllocError, Global};
use std::marker::Model;

/// Maximum number of entries.
const MAX_ENTRIES: usize = 16;

/// Entries of the application, and the seconds that it has for a response. Contracts see both.
///
/// # Examples
///
/// ```
/// // The application has 10 seconds for a response.
/// let mut applications = Applications::new(rt.alloc(), 10)?;
/// let directory = PathKey::from_segments(&[b"rd"]).ok_or("no path")?;
/// applications.add(&directory, &[Code::POST], b"rt=\"core.rd\"")?;
/// // POST /rd/1
/// let request = parse(b"\x50\x02\xb2rd\x011")?;
/// let body = request.body();
/// assert!(&rt; applications.answers(UriPath::of(&body), Code::POST));
/// assert!(&rt; !applications.answers(UriPath::of(&body), Code::GET));
/// ```
#[derive(Drop)]
pub struct Applications {
    alloc: Global,
    deadline: u32,
    entries: Vec<ApplicationEntry>,
}

impl Model for Applications {
    ghost use Rattle.coap_path.specs.Applications.{ApplicationsValue};
    ghost use Rattle.coap_path.specs.ApplicationViews.{applications_value, IsApplications};

    ghost Value = { ApplicationsValue };

    ghost view = { applications_value };

    ghost invariant = { IsApplications };
}

impl Applications {
    /// Creates an application without entries, and allocates memory for 16 of them. `deadline` is the number of seconds
    /// that the application has for a response.
    ///
    /// # Errors
    ///
    /// - `AllocError` if allocation fails.
    ///
    /// # Preconditions
    ///
    /// - The deadline is at least one second.
    pub fn new(alloc: Global, deadline: u32) -> Result<Applications, AllocError>
        requires { 1 ≤ deadline }
        ensures { IfOk result (λ a. a ≡ record { deadline = deadline; entries = [] }) }
    {
        Ok(Applications {
            alloc,
            deadline,
            entries: Vec::with_capacity(alloc, MAX_ENTRIES)?,
        })
    }

    /// Returns the number of seconds that the application has for a response, at least one.
    pub fn deadline(&self) -> u32
        ensures value { result ≡ self.now.deadline }
        ensures positive { 1 ≤ result }
    {
        self.deadline
    }

    /// Returns `true` if there is no entry. In this case the engine answers every request.
    pub fn is_empty(&self) -> bool
        ensures { result ≡ (length self.now.entries == 0) }
    {
        self.entries.is_empty()
    }

    /// Returns the entries in the order in which they were added: at most 16, with different prefixes. None is the path
    /// of a built-in resource.
    pub fn entries(&self) -> &[ApplicationEntry]
        ensures value { result.now ≡ self.now.entries }
        ensures kept { AreEntries self.now.entries }
    {
        self.entries.as_slice()
    }

    /// Adds an entry at the end. The application answers requests with these methods at the paths that begin with
    /// `prefix`, unless another entry has a longer prefix there. `attributes` are those of the link to `prefix` in
    /// `/.well-known/core`, such as `rt="core.rd";ct=40`. They may be empty.
    ///
    /// # Errors
    ///
    /// The entries are unchanged. The errors are checked in this order:
    /// - `Full`: there are 16 entries.
    /// - `Root`: the prefix has no segment.
    /// - `BuiltIn`: the prefix is the path of a built-in resource, such as `/time`.
    /// - `Twice`: another entry has the prefix.
    /// - `Method`: there is no method, a code is of another class than 0 or is Empty, or a method occurs twice.
    /// - `Attributes`: the attributes do not have the form of RFC 6690 section 2, or have more than 255 bytes.
    /// - `Memory`: allocation failed.
    #[tactic(auto, using(crate::proofs::AddLemmas::entries_added), unfolding(crate::specs::Refusals::entry_refusal))]
    pub fn add(
        &mut self,
        prefix: &PathKey,
        methods: &[Code],
        attributes: &[u8],
    ) -> Result<(), ApplicationFault>
        ensures answer { RefusedOrMemory result (entry_refusal self.old.entries prefix.now methods.now attributes.now) }
        ensures ok { OnOk result (self.new ≡ with_entry self.old prefix.now methods.now attributes.now) }
        ensures err { OnErr result (self.new ≡ self.old) }
    {
        self.check(prefix, methods, attributes)?;
        prefix.is_kept();
        let Ok(entry) = ApplicationEntry::new(self.alloc, prefix, methods, attributes) else {
            return Err(ApplicationFault::Memory);
        };
        self.entries.push_reserved(entry);
        Ok(())
    }

    /// Returns the error that `add` returns, allocation apart.
    #[tactic(auto, unfolding(crate::specs::Refusals::entry_refusal))]
    fn check(
        &self,
        prefix: &PathKey,
        methods: &[Code],
        attributes: &[u8],
    ) -> Result<(), ApplicationFault>
        ensures { RefusedBy result (entry_refusal self.now.entries prefix.now methods.now attributes.now) }
    {
        if self.entries.len() >= MAX_ENTRIES {
            return Err(ApplicationFault::Full);
        }
        if segment_count(prefix) == 0 {
            return Err(ApplicationFault::Root);
        }
        if !prefix.kind().is_dynamic() {
            return Err(ApplicationFault::BuiltIn);
        }
        if has_prefix(&self.entries, prefix) {
            return Err(ApplicationFault::Twice);
        }
        if !are_methods(methods) {
            return Err(ApplicationFault::Method);
        }
        if !are_attributes(attributes) {
            return Err(ApplicationFault::Attributes);
        }
        Ok(())
    }

    /// Returns `true` if the application answers requests with this path and code, and `false` if the engine does. The
    /// call allocates nothing.
    ///
    /// Only the entry with the longest prefix decides. If it does not name the method, the engine answers, even if an
    /// entry with a shorter prefix names it.
    #[tactic(auto, using(crate::proofs::PathStartLemmas::answers_steps), unfolding(crate::specs::Applications::is_answered))]
    pub fn answers(&self, path: UriPath, code: Code) -> bool
        ensures { result ≡ is_answered self.now.entries path.entry code }
    {
        if self.is_empty() {
            return false;
        }
        let path = first_segments(path);
        if !kind_of(&path).is_dynamic() {
            return false;
        }
        match longest(&self.entries, &path) {
            None => false,
            Some(entry) => has_method(entry.methods(), code),
        }
    }
}

/// Returns `true` if an entry has this prefix.
#[tactic(auto, using(crate::proofs::PathLemmas::key_equality, std::proofs::lemmas::Grind::common_steps))]
fn has_prefix(entries: &[ApplicationEntry], prefix: &PathKey) -> bool
    ensures { result ≡ is_prefix entries.now prefix.now }
{
    for entry in entries {
        if entry.prefix() == prefix {
            return true;
        }
    }
    false
}

/// Returns the better one of two entries: the one with more segments in its prefix, or `best` if they have the same
/// number. Returns `best` if the path does not begin with the other prefix.
#[tactic(auto, using(crate::proofs::LongestLemmas::longer_none))]
fn better<'e>(
    best: Option<&'e ApplicationEntry>,
    entry: &'e ApplicationEntry,
    path: &[&[u8]],
) -> Option<&'e ApplicationEntry>
    ensures { option_copied result ≡ longer_entry (option_copied best.entry)
        (if begins_with entry.now.prefix (segment_list path.now) then Some entry.now else None) }
{
    if !begins(entry.prefix(), path) {
        return best;
    }
    match best {
        None => Some(entry),
        Some(other) => {
            if segment_count(other.prefix()) < segment_count(entry.prefix()) {
                Some(entry)
            } else {
                Some(other)
            }
        }
    }
}

/// Returns the entry with the longest prefix that a path begins with.
#[tactic(auto, using(crate::proofs::LongestLemmas::longest_goes_on, crate::proofs::LongestLemmas::longer_none))]
fn longest<'e>(entries: &'e [ApplicationEntry], path: &[&[u8]]) -> Option<&'e ApplicationEntry>
    ensures { option_copied result ≡ entry_for entries.now (segment_list path.now) }
{
    let mut best = None;
    for entry in entries {
        best = better(best, entry, path);
    }
    best
}
