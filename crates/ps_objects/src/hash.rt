//! Hashes of names.
ghost use Rattle.std.specs.Prelude.{◌≡◌};
ghost use Rattle.ps_objects.specs.Hash.{name_hash, hash_with};

/// The 64-bit FNV-1a hash of the bytes (Fowler, Noll and Vo), for tables that are searched by names.
pub fn name_hash(bytes: &[u8]) -> u64
    ensures { result ≡ name_hash bytes.now }
{
    let mut hash = 14695981039346656037;
    for byte in bytes {
        hash = hash_with(hash, *byte);
    }
    hash
}

/// The hash of one byte more.
fn hash_with(hash: u64, byte: u8) -> u64
    ensures { result ≡ hash_with hash byte }
{
    (hash ^ byte as u64).wrapping_mul(1099511628211)
}
