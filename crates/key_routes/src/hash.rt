//! The shard of a key, by its hash. Which shard it is does not change from one release to another.
ghost use Rattle.std.specs.Prelude.{◌≡◌, ◌<◌};
ghost use Rattle.key_routes.specs.Hashes.{hash_of, hash_with, shard_of_key};

/// The hash of no bytes.
const OFFSET_BASIS: u64 = 0xcbf2_9ce4_8422_2325;

/// What each byte multiplies the hash by.
const PRIME: u64 = 0x0100_0000_01b3;

/// A hash has two halves, each below this.
const HALF: u64 = 1 << 32;

/// The shard, counted from 0, that is the home of a key.
pub fn shard_of_key(key: &[u8], shards: u32) -> u32
    requires { 0 < shards }
    ensures shard { result ≡ shard_of_key shards key.now }
    ensures within { result < shards }
{
    let hash = hash_of(key);
    let folded = (hash / HALF) ^ (hash % HALF);
    (folded % u64::from(shards)) as u32
}

fn hash_of(key: &[u8]) -> u64
    ensures { result ≡ hash_of key.now }
{
    let mut hash = OFFSET_BASIS;
    'bytes: for &byte in key {
        hash = hash_with(hash, byte);
    }
    hash
}

fn hash_with(hash: u64, byte: u8) -> u64
    ensures { result ≡ hash_with hash byte }
{
    (hash ^ u64::from(byte)).wrapping_mul(PRIME)
}
