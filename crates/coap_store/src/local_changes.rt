//! Changes of resources by the program that embeds the server.

use crate::fault::StoreFault;
use crate::store::Store;
use coap_path::PathKey;

impl Store {
    ghost use Rattle.std.specs.Prelude.{◌≡◌, ◌+◌, is_none, IfOk, OnOk, OnErr};
    ghost use Rattle.coap_store.specs.Prelude.{RefusedBy, put_in, removed_in, IsStore, RefusedOrMemory, put_refusal};
    ghost use Rattle.coap_store.specs.Prelude.{remove_refusal};

    /// Stores these bytes, with this Content-Format if any, at a path, in place of the present representation.
    ///
    /// Returns the new version: one more than that of the representation stored last, at this path or another.
    ///
    /// # Errors
    ///
    /// The store is unchanged. The errors are checked in this order:
    /// - `TooLarge`: the bytes exceed the maximum size of a representation.
    /// - `BadPath`: the path is that of a built-in resource.
    /// - `Limit`: the path is absent, and the limit of created resources is reached.
    /// - `VersionsSpent`: no version is left.
    /// - `Memory`: allocation failed.
    #[tactic(auto, using(crate::proofs::RefusalLemmas::takes_put), unfolding(crate::specs::Refusals::put_refusal))]
    pub fn put(
        &mut self,
        path: &PathKey,
        format: Option<u16>,
        bytes: &[u8],
    ) -> Result<u64, StoreFault>
        ensures answer { RefusedOrMemory result (put_refusal self.old path.now bytes.now) }
        ensures version { IfOk result (λ version. version ≡ self.old.versions + 1) }
        ensures ok { OnOk result (self.new ≡ put_in self.old path.now format bytes.now) }
        ensures err { OnErr result (self.new ≡ self.old) }
        ensures store { IsStore self.new }
    {
        self.is_kept();
        self.check_put(path, bytes)?;
        path.is_kept();
        let Ok(()) = self.store(path.duplicate(), format, bytes) else {
            return Err(StoreFault::Memory);
        };
        Ok(self.versions())
    }

    /// Removes the resource at a path, without allocation.
    ///
    /// # Errors
    ///
    /// - `NoSuch`: the path is absent or that of a built-in resource. The store is unchanged.
    #[tactic(auto, using(crate::proofs::RefusalLemmas::remove_absent, crate::proofs::RefusalLemmas::remove_present))]
    pub fn remove(&mut self, path: &PathKey) -> Result<(), StoreFault>
        ensures answer { RefusedBy result (remove_refusal self.old path.now) }
        ensures ok { OnOk result (self.new ≡ removed_in self.old path.now) }
        ensures err { OnErr result (self.new ≡ self.old) }
        ensures store { IsStore self.new }
    {
        self.is_kept();
        if self.find(path).is_none() {
            return Err(StoreFault::NoSuch);
        }
        self.delete(path);
        Ok(())
    }

    /// Returns `true` if `remove` would succeed at a path. The call allocates nothing.
    #[tactic(auto, using(crate::proofs::RefusalLemmas::removal_reported))]
    pub fn can_remove(&self, path: &PathKey) -> bool
        ensures { result ≡ is_none (remove_refusal self.now path.now) }
    {
        self.is_kept();
        self.find(path).is_some()
    }

    /// Returns the error that `put` returns, allocation apart.
    #[tactic(auto, unfolding(crate::specs::Refusals::put_refusal))]
    fn check_put(&self, path: &PathKey, bytes: &[u8]) -> Result<(), StoreFault>
        ensures { RefusedBy result (put_refusal self.now path.now bytes.now) }
    {
        if bytes.len() > self.rep_max() {
            return Err(StoreFault::TooLarge);
        }
        if !path.kind().is_dynamic() {
            return Err(StoreFault::BadPath);
        }
        if self.is_full() && self.find(path).is_none() {
            return Err(StoreFault::Limit);
        }
        if !self.has_version() {
            return Err(StoreFault::VersionsSpent);
        }
        Ok(())
    }
}
