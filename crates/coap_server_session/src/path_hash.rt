//! The hash of a path, by which a change finds the observers that it affects.

ghost use Rattle.std.specs.Prelude.{◌≡◌, ◌+◌, ◌*◌, ◌%◌};
ghost use Rattle.coap_server_session.specs.Prelude.{hash_after, path_hash};

use coap_store::{PathKey, UriPath};

/// Returns the hash of a path. Different paths may have the same hash.
pub fn hash_of(path: &PathKey) -> u8
    ensures { result ≡ path_hash path.now }
{
    let mut hash = 0;
    for segment in path.segments() {
        hash = hash_on(hash, segment);
    }
    hash
}

/// Returns the hash of the path of a request, as `hash_of` does, without a key.
pub(crate) fn hash_of_request(path: UriPath) -> u8
    ensures { result ≡ path_hash path.entry }
{
    let mut hash = 0;
    for segment in path {
        hash = hash_on(hash, segment);
    }
    hash
}

/// Returns the hash of `bytes` appended to bytes whose hash is `hash`.
fn hash_on(hash: u8, bytes: &[u8]) -> u8
    ensures { result ≡ hash_after hash bytes.now }
{
    let mut so_far = hash;
    for byte in bytes {
        so_far = next_hash(so_far, *byte);
    }
    so_far
}

/// Returns the hash after one more byte.
fn next_hash(hash: u8, byte: u8) -> u8
    ensures { result ≡ (hash * 31 + byte) % 256 }
{
    ((u32::from(hash) * 31 + u32::from(byte)) % 256) as u8
}
