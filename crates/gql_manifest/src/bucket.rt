//! Where an operation goes, if operations are put together: into a bucket, by its name alone.

ghost use Rattle.std.specs.Prelude.{◌≡◌, ◌<◌};
ghost use Rattle.gql_manifest.specs.Buckets.{bucket_of};

/// How many buckets there are.
pub const BUCKETS: usize = 96;

/// The base that the bytes of a name are the digits of a number in.
const BASE: usize = 131;

/// The prime that this number is taken modulo.
const PRIME: usize = 65_521;

/// The bucket of an operation of this name: the bytes of the name are the digits of a number in
/// base 131, and the bucket is that number modulo 65,521, modulo 96.
pub fn bucket_of(name: &str) -> usize
    ensures number { result ≡ bucket_of name.now }
    ensures below { result < 96 }
{
    let bytes = name.as_bytes();
    let mut number = 0;
    for byte in bytes {
        number = (number * BASE + usize::from(*byte)) % PRIME;
    }
    number % BUCKETS
}
