// The call itself: the dial line typed, and the fills, written as the samples of a WAV file.
ghost use Rattle.std.specs.Prelude.{◌≤◌};

use crate::talk::Talk;
use session::SessionState;
use set::Set;
use std::io;
use std::io::Write;
use text::Page;

// A card that changes its buffer length during the show; the samples of each fill, over and over.
const LENGTHS: [usize; 16] = [
    512, 64, 0, 441, 1024, 1, 160, 0, 2048, 480, 97, 4096, 0, 333, 128, 733,
];

pub fn length(fill: u32) -> usize {
    let place = (fill % 16) as usize;
    LENGTHS[place]
}

pub fn dial(rate: u32, digits: &[u8]) -> Set {
    let made = Set::new(rate);
    let fresh = made.set;
    let prefix = typed(fresh, b"ATDT");
    let number = typed(prefix, digits);
    typed(number, b"\r")
}

fn typed(set: Set, bytes: &[u8]) -> Set {
    let mut s = set;
    for byte in bytes {
        s = feed(s, *byte);
    }
    s
}

fn feed(set: Set, byte: u8) -> Set {
    let mut outbox = [0u8; 4];
    set.feed(byte, false, &mut outbox)
        .map_or(set, |typed| typed.set)
}

pub fn is_dialling(set: Set) -> bool {
    set.state() == SessionState::Dialling
}

// Makes the fills from the dial line on, and writes their first `total` samples to a file, behind the
// header.
pub fn record(
    file: &mut impl Write,
    set: Set,
    message: &[u8],
    total: u32,
    samples: &mut [f32],
) -> io::Result<()> {
    let mut bytes = Page::<16384>::new();
    file.write_all(&samples::wav::header(total, set.rate()))?;
    let mut talk = Talk::new(set, message);
    let mut left = total;
    // A proved loop has to end: no call has as many fills as this one allows.
    for fill in 0..u32::MAX {
        if left == 0 {
            break;
        }
        let n = length(fill);
        if n <= samples.len() {
            let part = &mut samples[..n];
            talk.fill(part);
            // Samples past the total are not written.
            let kept = at_most(part.len(), left);
            write(file, &part[..kept as usize], &mut bytes)?;
            left -= kept;
        }
    }
    Ok(())
}

// The least of both, told by a clause: what is taken from it and cut by it needs both bounds.
pub fn at_most(length: usize, most: u32) -> u32
    ensures { (result ≤ length) × (result ≤ most) }
{
    length.min(most as usize) as u32
}

fn write(file: &mut impl Write, samples: &[f32], bytes: &mut Page<16384>) -> io::Result<()> {
    bytes.clear();
    samples::page::put_samples(bytes, samples);
    file.write_all(bytes.text())
}
