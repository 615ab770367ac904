// Samples' bytes on a page, and what stands before them there.
ghost use Rattle.std.specs.Prelude.{◌≡◌};
ghost use Rattle.std.specs.List.{flat_map};
ghost use Rattle.samples.specs.Bytes.{low_first};
ghost use Rattle.text.specs.Page.{add_of};

use crate::Sample;
use crate::wav::WHOLE;
use std::convert::AsSlice;
use text::Page;

// Puts the samples' bytes on a page. Where the whole does not fit, nothing is put.
pub fn put_samples<S: Sample, const N: usize>(page: &mut Page<N>, samples: &[S])
    ensures { page.new ≡ add_of page.old (flat_map S.bytes samples.now) }
{
    if crate::fit(samples, N - page.text().len()) {
        for sample in samples {
            page.put(sample.le_bytes().as_slice());
        }
    }
}

// What stands before the samples' bytes. Up to 1,073,741,811 floats, or 2,147,483,629 whole samples, its sizes fit their places.
pub fn header<S: Sample>(samples: u32, rate: u32) -> Page<58>
    ensures { result.text ≡ S.header samples rate }
{
    let size = u64::from(S::SIZE);
    let bytes = u64::from(samples) * size;
    let extended = S::FORMAT != WHOLE;
    let (rest, format) = if extended { (50, 18) } else { (36, 16) };
    let mut head = Page::new();
    head.put(b"RIFF");
    put_number(&mut head, bytes + rest);
    head.put(b"WAVEfmt ");
    put_number(&mut head, format);
    put_short(&mut head, S::FORMAT);
    put_short(&mut head, 1);
    put_number(&mut head, u64::from(rate));
    put_number(&mut head, u64::from(rate) * size);
    put_short(&mut head, u16::from(S::SIZE));
    put_short(&mut head, u16::from(S::SIZE) * 8);
    if extended {
        head.put(b"\0\0fact\x04\0\0\0");
        put_number(&mut head, u64::from(samples));
    }
    head.put(b"data");
    put_number(&mut head, bytes);
    head
}

#[tactic(auto, unfolding(crate::specs::Bytes::low_first))]
fn put_short(head: &mut Page<58>, number: u16)
    ensures { head.new ≡ add_of head.old (low_first 2 number) }
{
    head.put(&number.to_le_bytes());
}

fn put_number(head: &mut Page<58>, number: u64)
    ensures { head.new ≡ add_of head.old (low_first 4 number) }
{
    head.put(&crate::low_first(number));
}
