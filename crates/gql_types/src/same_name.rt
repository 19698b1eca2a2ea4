//! Whether two names are the same.
ghost use Rattle.std.specs.Prelude.{◌≡◌, bytes_eq};

/// Whether two names are the same. Most that differ have another length or another first byte.
/// Names of fewer than eight bytes are compared byte by byte, which is faster than to compare
/// slices.
pub fn is_same_name(name: &str, other: &str) -> bool
    ensures { result ≡ bytes_eq name.now other.now }
{
    let (bytes, others) = (name.as_bytes(), other.as_bytes());
    if bytes.len() != others.len() || (!bytes.is_empty() && bytes[0] != others[0]) {
        return false;
    }
    if bytes.len() >= 8 {
        return name == other;
    }
    let mut is_same = true;
    let mut place = bytes.len();
    'bytes: while place > 0 {
        place -= 1;
        is_same = (bytes[place] == others[place]) & is_same;
    }
    is_same
}
