//! Hashes of keys.
ghost use Rattle.std.specs.Prelude.{◌≡◌};
ghost use Rattle.sj_object.specs.Hash.{hash_after, text_hash};

/// Returns the hash of a key's text: it starts at 0, and each byte of the text takes a hash `h` to `31 * h` plus that
/// byte, modulo 2^64.
pub fn hash_key(key: &str) -> u64
    ensures { result ≡ text_hash key.now }
{
    let mut hash = 0;
    let mut rest = key.as_bytes();
    while let Some((bytes, behind)) = rest.split_first_chunk::<4>() {
        hash = hash_of_four(hash, *bytes);
        rest = behind;
    }
    rest.iter().fold(hash, |hash: u64, byte| {
        hash.wrapping_mul(31).wrapping_add(u64::from(*byte))
    })
}

/// The hash after four more bytes. What they add to it doesn't wait for the hash.
#[inline(always)]
fn hash_of_four(hash: u64, bytes: [u8; 4]) -> u64
    ensures { result ≡ hash_after hash bytes }
{
    let [a, b, c, d] = bytes.map(u64::from);
    let sum = ((a * 31 + b) * 31 + c) * 31 + d;
    hash.wrapping_mul(31 * 31 * 31 * 31).wrapping_add(sum)
}

/// The fixed hash of keys. Port of `simd_json::known_key::NotSoRandomState`.
#[derive(Clone, Copy, Debug, Default)]
pub struct NotSoRandomState;

impl NotSoRandomState {
    /// Returns the hash of a text, which is its [`hash_key`].
    pub fn hash_text(&self, text: &str) -> u64
        ensures { result ≡ text_hash text.now }
    {
        hash_key(text)
    }
}

/// The hasher of objects. Port of `simd_json::value::ObjectHasher`.
pub type ObjectHasher = NotSoRandomState;
