//! Hashes of keys: one number for each key, mostly different ones for different keys. Nothing rests on
//! that they differ.

ghost use Rattle.std.specs.Prelude.{◌≡◌};
ghost use Rattle.digit_tuple.specs.KeyHashes.{mixed, hash_of};

/// The hash of a key. Its numbers are mixed in two at a time, and last the halves of the hash.
pub fn key_hash(key: &[u32]) -> u32
    ensures { result ≡ hash_of key.now }
{
    let mut hash = key.len() as u64;
    for pair in 0..key.len() / 2 {
        hash = mix(
            hash,
            u64::from(key[2 * pair + 1]) * 0x1_0000_0000 + u64::from(key[2 * pair]),
        );
    }
    if key.len() % 2 == 1 {
        hash = mix(hash, u64::from(key[key.len() - 1]));
    }
    (mix(hash, 0) >> 32) as u32
}

/// The hash with one more number.
pub fn mix(hash: u64, number: u64) -> u64
    ensures { result ≡ mixed hash number }
{
    let product = (hash ^ number).wrapping_mul(0x9E37_79B9_7F4A_7C15);
    product ^ (product >> 32)
}
