//! An entry of the application.

ghost use Rattle.std.specs.Prelude.{◌≡◌, ◌≤◌, true, IfOk, length};
ghost use Rattle.coap_path.specs.Prelude.{are_methods, are_attributes, is_dynamic, kind_of_path};

use crate::path::PathKey;
use coap_wire::Code;
use std::alloc::{AllocError, Global};
use std::marker::Model;

/// Entry of the application: a prefix of paths, the methods that the application answers there, and the attributes of
/// its link in `/.well-known/core`.
///
/// The prefix has at least one segment, and is not the path of a built-in resource. Each method is a code of class 0
/// other than Empty. There is at least one, and none occurs twice. The attributes have the form of RFC 6690 section 2,
/// in at most 255 bytes.
#[derive(Drop)]
pub struct ApplicationEntry {
    prefix: PathKey,
    methods: Vec<Code>,
    attributes: Vec<u8>,
}

impl Model for ApplicationEntry {
    ghost use Rattle.coap_path.specs.Applications.{ApplicationEntryValue};
    ghost use Rattle.coap_path.specs.EntryViews.{entry_value, is_entry};

    ghost Value = { ApplicationEntryValue };

    ghost view = { entry_value };

    ghost invariant = { is_entry };
}

impl ApplicationEntry {
    /// Creates an entry. Fails only if allocation fails.
    pub(crate) fn new(
        alloc: Global,
        prefix: &PathKey,
        methods: &[Code],
        attributes: &[u8],
    ) -> Result<ApplicationEntry, AllocError>
        requires below_root { 1 ≤ length prefix.now }
        requires dynamic { is_dynamic (kind_of_path prefix.now) ≡ true }
        requires methods { are_methods methods.now ≡ true }
        requires attributes { are_attributes attributes.now ≡ true }
        ensures { IfOk result (λ e. e ≡ record {
          prefix = prefix.now;
          methods = methods.now;
          attributes = attributes.now;
        }) }
    {
        prefix.is_kept();
        Ok(ApplicationEntry {
            prefix: prefix.duplicate(),
            methods: Vec::from_slice(alloc, methods)?,
            attributes: Vec::from_slice(alloc, attributes)?,
        })
    }

    /// Returns the prefix of the paths that belong to the entry.
    pub fn prefix(&self) -> &PathKey
        ensures { result.now ≡ self.now.prefix }
    {
        &self.prefix
    }

    /// Returns the methods that the application answers.
    pub fn methods(&self) -> &[Code]
        ensures { result.now ≡ self.now.methods }
    {
        self.methods.as_slice()
    }

    /// Returns the attributes of the entry's link in `/.well-known/core`. They may be empty.
    pub fn attributes(&self) -> &[u8]
        ensures { result.now ≡ self.now.attributes }
    {
        self.attributes.as_slice()
    }
}
