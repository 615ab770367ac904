// Texts in a buffer that is lent: each function writes at a place and answers the place after it. Where
// the whole does not fit, nothing is written and the place stays.
ghost use Rattle.std.specs.Prelude.{◌≡◌, ◌∷◌, [], ◌+◌, ◌≤◌, ◌<◌, leb, length};
ghost use Rattle.text.specs.Text.{page_of, add_of};
ghost use Rattle.text.specs.Digits.{last_digits, decimal_of};
ghost use Rattle.text.specs.Seconds.{seconds_of};

use crate::{places, spell};

// Whether a text of `count` bytes fits at a place of a buffer.
pub fn has_room(room: usize, at: usize, count: usize) -> bool
    ensures { result ≡ leb (at + count) room }
{
    at <= room && count <= room - at
}

pub fn put(out: &mut [u8], at: usize, text: &[u8]) -> usize
    ensures { page_of out.new result ≡ add_of (page_of out.old at) text.now }
{
    if has_room(out.len(), at, text.len()) {
        let end = at + text.len();
        out[at..end].copy_from_slice(text);
        end
    } else {
        at
    }
}

pub fn put_byte(out: &mut [u8], at: usize, byte: u8) -> usize
    ensures { page_of out.new result ≡ add_of (page_of out.old at) (byte ∷ []) }
{
    put(out, at, &[byte])
}

// The number's decimal digits, with no zeros in front.
pub fn put_decimal(out: &mut [u8], at: usize, number: u64) -> usize
    ensures { page_of out.new result ≡ add_of (page_of out.old at) (decimal_of number) }
{
    put_digits(out, at, number, 10, places(number))
}

// The number's last `count` hexadecimal digits, in upper case.
pub fn put_hex(out: &mut [u8], at: usize, number: u64, count: usize) -> usize
    ensures { page_of out.new result ≡ add_of (page_of out.old at) (last_digits 16 count number) }
{
    put_digits(out, at, number, 16, count)
}

// How long samples last at a rate, in seconds with four decimals, rounded to the nearest. At the
// rate 0, nothing.
pub fn put_seconds(out: &mut [u8], at: usize, samples: u32, rate: u32) -> usize
    ensures { page_of out.new result ≡ add_of (page_of out.old at) (seconds_of samples rate) }
{
    if rate == 0 {
        return at;
    }
    let parts = (samples as u64 * 10000 + rate as u64 / 2) / rate as u64;
    let whole = parts / 10000;
    if has_room(out.len(), at, places(whole) + 5) {
        let point = put_decimal(out, at, whole);
        let fraction = put_byte(out, point, b'.');
        put_digits(out, fraction, parts, 10, 4)
    } else {
        at
    }
}

fn put_digits(out: &mut [u8], at: usize, number: u64, base: u64, count: usize) -> usize
    requires base_1 { 0 < base }
    requires base_16 { base ≤ 16 }
    ensures { page_of out.new result ≡ add_of (page_of out.old at) (last_digits base count number) }
{
    if has_room(out.len(), at, count) {
        let end = at + count;
        spell(&mut out[at..end], number, base);
        end
    } else {
        at
    }
}
