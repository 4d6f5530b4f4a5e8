//! The hash of a key.
ghost use Rattle.std.specs.Prelude.{◌≡◌};
ghost use Rattle.vm_mem.specs.Hashes.{key_hash};

use ps_objects::Key;

/// The hash of a key, which is taken once for all dictionaries in which it is sought: that of a name, and 0 of other keys.
pub fn hash_of(key: &Key) -> u64
    ensures { result ≡ key_hash key.now }
{
    match key {
        Key::Name(name) => name.hash(),
        _ => 0,
    }
}
