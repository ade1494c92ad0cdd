//! Slices of bytes that a program in C passes: bytes that are read from a position on, and buffers that are filled.

ghost use Rattle.std.specs.Prelude.{◌≡◌, ◌+◌, ◌≤◌, ◌++◌, length, take, drop};

/// Returns the bytes from a position on, or no byte if it is past the end.
pub(crate) fn bytes_from(bytes: &[u8], at: usize) -> &[u8]
    ensures { result.now ≡ drop at bytes.now }
{
    if bytes.len() < at {
        return &[];
    }
    &bytes[at..]
}

/// Copies bytes to the position `at` of a buffer, and returns the position after them.
pub(crate) fn put(buffer: &mut [u8], at: usize, bytes: &[u8]) -> usize
    requires { at + length bytes.now ≤ length buffer.old }
    ensures written { buffer.new ≡ take at buffer.old ++ (bytes.now ++ drop (at + length bytes.now) buffer.old) }
    ensures after { result ≡ at + length bytes.now }
{
    let end = at + bytes.len();
    buffer[at..end].copy_from_slice(bytes);
    end
}
