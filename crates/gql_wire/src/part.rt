//! Parts of a slice of bytes.
ghost use Rattle.std.specs.Prelude.{◌≡◌, ◌≢◌, ◌+◌, ◌-◌, ◌<◌, ◌≤◌, ℕ, length, take, drop, slice_index};

/// The first `count` bytes.
pub fn front(bytes: &[u8], count: usize) -> &[u8]
    requires { count ≤ length bytes.now }
    ensures { result.now ≡ take count bytes.now }
{
    &bytes[..count]
}

/// The bytes from `start` on.
pub fn rest_from(bytes: &[u8], start: usize) -> &[u8]
    requires { start ≤ length bytes.now }
    ensures { result.now ≡ drop start bytes.now }
{
    &bytes[start..]
}

/// The number of bytes up to and including the first line feed; without one, of all bytes.
pub fn line_len(bytes: &[u8]) -> usize
    requires { 0 < length bytes.now }
    ensures some { 0 < result }
    ensures within { result ≤ length bytes.now }
    ensures ended { result < length bytes.now → slice_index bytes.now (result - 1) ≡ 10 }
    ensures line { (k : ℕ) → k + 1 < result → slice_index bytes.now k ≢ 10 }
{
    for (index, byte) in bytes.iter().enumerate() {
        if *byte == b'\n' {
            return index + 1;
        }
    }
    bytes.len()
}
