// Samples as bytes, the low byte first: written out, hashed, and as a WAV file.
#![tactic(auto)]

pub mod fnv;
pub mod page;
pub mod wav;

ghost use Rattle.std.specs.Prelude.{◌≡◌, ◌+◌, ℕ, List, leb, length, to_bits};
ghost use Rattle.std.specs.Float.{binary32};
ghost use Rattle.std.specs.List.{flat_map};
ghost use Rattle.samples.specs.Bytes.{low_first, float_bytes, whole_bytes};
ghost use Rattle.samples.specs.Wav.{header_of, whole_header_of};
ghost use Rattle.samples.specs.Laws.{header_by, float_size, whole_size, float_header, whole_header};
ghost use Rattle.text.specs.Text.{page_of, add_of};

use std::convert::AsSlice;
use wav::{FLOAT, WHOLE};

// A sample as a WAV file of one channel has it.
pub trait Sample: Copy {
    type Bytes: AsSlice<u8> + Copy;

    ghost SIZE: { ℕ };

    ghost FORMAT: { ℕ };

    // its bytes in the file
    ghost bytes: { Self → List ℕ };

    // what stands before those of so many samples at a rate
    ghost header: { ℕ → ℕ → List ℕ };

    // How many bytes a sample has.
    const SIZE: u8;

    // WAV's number for it.
    const FORMAT: u16;

    // Its bytes, the low byte first.
    fn le_bytes(self) -> Self::Bytes
        ensures { Self.Bytes.items result ≡ bytes self };

    ghost has_size: { (x : Self) → length (bytes x) ≡ SIZE };

    ghost has_header: { (samples rate : ℕ) → header samples rate ≡ header_by FORMAT SIZE samples rate };
}

impl Sample for f32 {
    type Bytes = [u8; 4];

    ghost SIZE = { 4 };

    ghost FORMAT = { 3 };

    ghost bytes = { float_bytes };

    ghost header = { header_of };

    ghost has_size = { float_size };

    ghost has_header = { float_header };

    const SIZE: u8 = 4;

    const FORMAT: u16 = FLOAT;

    #[tactic(auto, unfolding(crate::specs::Bytes::low_first, crate::specs::Bytes::float_bytes))]
    fn le_bytes(self) -> [u8; 4] {
        bits(self).to_le_bytes()
    }
}

impl Sample for i16 {
    type Bytes = [u8; 2];

    ghost SIZE = { 2 };

    ghost FORMAT = { 1 };

    ghost bytes = { whole_bytes };

    ghost header = { whole_header_of };

    ghost has_size = { whole_size };

    ghost has_header = { whole_header };

    const SIZE: u8 = 2;

    const FORMAT: u16 = WHOLE;

    #[tactic(auto, unfolding(crate::specs::Bytes::low_first, crate::specs::Bytes::whole_bytes))]
    fn le_bytes(self) -> [u8; 2] {
        self.to_le_bytes()
    }
}

// Writes the samples' bytes at a place and answers the place after them. Where the whole does not
// fit, nothing is written and the place stays.
pub fn put_samples<S: Sample>(out: &mut [u8], at: usize, samples: &[S]) -> usize
    ensures { page_of out.new result ≡ add_of (page_of out.old at) (flat_map S.bytes samples.now) }
{
    let mut place = at;
    if at <= out.len() && fit(samples, out.len() - at) {
        for sample in samples {
            place = text::put(out, place, sample.le_bytes().as_slice());
        }
    }
    place
}

// Whether the samples' bytes fit into so much room.
fn fit<S: Sample>(samples: &[S], room: usize) -> bool
    ensures { result ≡ leb (length (flat_map S.bytes samples.now)) room }
{
    samples.len() as u128 * u128::from(S::SIZE) <= room as u128
}

// The bit pattern of a sample. A NaN, which no sample is, has one pattern here.
pub fn bits(sample: f32) -> u32
    ensures { result ≡ to_bits binary32 sample }
{
    if sample.is_nan() {
        0x7fc0_0000
    } else {
        sample.to_bits()
    }
}

// The number's four lowest bytes, the low byte first.
#[tactic(auto, unfolding(crate::specs::Bytes::low_first))]
pub fn low_first(number: u64) -> [u8; 4]
    ensures { result ≡ low_first 4 number }
{
    let [a, b, c, d, ..] = number.to_le_bytes();
    [a, b, c, d]
}
