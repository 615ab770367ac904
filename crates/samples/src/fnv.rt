// FNV-1a, 64 bits wide.
ghost use Rattle.std.specs.Prelude.{◌≡◌};
ghost use Rattle.samples.specs.Bytes.{bytes_of, float_bytes};
ghost use Rattle.samples.specs.Fnv.{hashed_of, hash_of};

use crate::Sample;

// The hash of no byte.
pub const OFFSET: u64 = 0xcbf2_9ce4_8422_2325;

const PRIME: u64 = 0x100_0000_01b3;

#[tactic(auto, unfolding(crate::specs::Fnv::hashed_of))]
pub fn hash_byte(hash: u64, byte: u8) -> u64
    ensures { result ≡ hashed_of hash byte }
{
    (hash ^ u64::from(byte)).wrapping_mul(PRIME)
}

#[tactic(auto, unfolding(crate::specs::Fnv::hash_of))]
pub fn hash_samples(hash: u64, samples: &[f32]) -> u64
    ensures { result ≡ hash_of hash (bytes_of samples.now) }
{
    let mut h = hash;
    for sample in samples {
        h = hash_sample(h, *sample);
    }
    h
}

#[tactic(auto, unfolding(crate::specs::Fnv::hash_of))]
fn hash_sample(hash: u64, sample: f32) -> u64
    ensures { result ≡ hash_of hash (float_bytes sample) }
{
    let mut hashed = hash;
    for byte in sample.le_bytes() {
        hashed = hash_byte(hashed, byte);
    }
    hashed
}
