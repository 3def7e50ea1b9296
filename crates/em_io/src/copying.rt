//! Copying out of a vector, piece by piece.
ghost use Rattle.std.specs.Prelude.{◌≡◌, ◌+◌, ◌<◌, ◌≤◌, ◌↔◌, [], ◌++◌, drop, length, take};

/// Copies the bytes from `start` on into the front of `buf`, as many as there are and fit, and returns how many.
pub fn copy_from(bytes: &[u8], start: usize, buf: &mut [u8]) -> usize
    requires { start ≤ length bytes.now }
    ensures within { result ≤ length buf.new }
    ensures in_bytes { start + result ≤ length bytes.now }
    ensures copied { drop start bytes.now ≡ take result buf.new ++ drop (start + result) bytes.now }
    ensures end { 0 < length buf.new → (result ≡ 0) ↔ (drop start bytes.now ≡ []) }
{
    let rest = &bytes[start..];
    let count = buf.len().min(rest.len());
    buf[..count].copy_from_slice(&rest[..count]);
    count
}
