// A WAV file of one channel of 32-bit floats.
ghost use Rattle.std.specs.Prelude.{◌≡◌};
ghost use Rattle.samples.specs.Wav.{header_of};

use crate::page;

// WAV's number of whole samples. A file of any others has an extension and counts its samples.
pub(crate) const WHOLE: u16 = 1;

pub(crate) const FLOAT: u16 = 3;

// What stands before the samples' bytes. Up to 1,073,741,811 samples its sizes fit their places.
pub fn header(samples: u32, rate: u32) -> [u8; 58]
    ensures { result ≡ header_of samples rate }
{
    let mut head = [0; 58];
    text::put(&mut head, 0, page::header::<f32>(samples, rate).text());
    head
}
