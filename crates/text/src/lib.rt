// The text of an answer: written in a buffer that is lent, at a place of it, or on a page, which is a buffer
// of its own and the place in it. Each function adds the whole of a text, or nothing where it does not fit.
// A value's Display would promise its text only at Ok, and nothing says that it answers Ok where there is
// room, so that a line that fits could be missing: these are functions and methods.
#![tactic(auto)]

mod lent;

ghost use Rattle.std.specs.Prelude.{◌≡◌, ◌∷◌, [], ◌++◌, ◌+◌, ◌-◌, ◌≤◌, ◌<◌, leb, length, take, drop};
ghost use Rattle.text.specs.Page.{fresh_page, add_of};
ghost use Rattle.text.specs.Digits.{glyph_of, last_digits, places_of, decimal_of};
ghost use Rattle.text.specs.Seconds.{seconds_of};
ghost use Rattle.text.specs.Fields.{numbered, in_hex, hex_on};

pub use lent::{has_room, put, put_byte, put_decimal, put_hex, put_seconds};
use std::fmt;
use std::marker::Model;

// The texts are at the front.
#[derive(Drop)]
pub struct Page<const N: usize> {
    bytes: [u8; N],
    end: usize,
}

impl<const N: usize> Model for Page<N> {
    ghost use Rattle.std.specs.Prelude.{◌≤◌, take};
    ghost use Rattle.text.specs.Page.{Page as OnPage};

    ghost Value = { OnPage };

    ghost view = { λ p. record { room = N; text = take p.end p.bytes } };

    ghost invariant = { λ p. p.end ≤ N };
}

impl<const N: usize> Page<N> {
    pub fn new() -> Self
        ensures { result ≡ fresh_page N }
    {
        Page {
            bytes: [0; N],
            end: 0,
        }
    }

    // What is on the page.
    pub fn text(&self) -> &[u8]
        ensures value { result.now ≡ self.now.text }
        ensures in_bounds { length result.now ≤ N }
        ensures room { self.now.room ≡ N }
    {
        &self.bytes[..self.end]
    }

    pub fn clear(&mut self)
        ensures { self.new ≡ fresh_page N }
    {
        self.end = 0;
    }

    // Whether so many bytes more fit.
    pub fn has_room(&self, count: usize) -> bool
        ensures { result ≡ leb (length self.now.text + count) self.now.room }
    {
        has_room(N, self.end, count)
    }

    pub fn put(&mut self, text: &[u8])
        ensures { self.new ≡ add_of self.old text.now }
    {
        self.end = put(&mut self.bytes, self.end, text);
    }

    pub fn put_byte(&mut self, byte: u8)
        ensures { self.new ≡ add_of self.old (byte ∷ []) }
    {
        self.put(&[byte]);
    }

    // The number's decimal digits, with no zeros in front.
    pub fn put_decimal(&mut self, number: u64)
        ensures { self.new ≡ add_of self.old (decimal_of number) }
    {
        self.end = put_decimal(&mut self.bytes, self.end, number);
    }

    // The number's last `count` hexadecimal digits, in upper case.
    pub fn put_hex(&mut self, number: u64, count: usize)
        ensures { self.new ≡ add_of self.old (last_digits 16 count number) }
    {
        self.end = put_hex(&mut self.bytes, self.end, number, count);
    }

    // A number in decimal, and a comma.
    pub fn put_number(&mut self, number: u64)
        ensures { self.new ≡ numbered self.old number }
    {
        self.put_decimal(number);
        self.put_byte(b',');
    }

    // Each byte's two hexadecimal digits, or a dash for none.
    pub fn put_bytes(&mut self, bytes: &[u8])
        ensures { self.new ≡ hex_on self.old bytes.now }
    {
        if bytes.is_empty() {
            self.put_byte(b'-');
        } else {
            self.put_pairs(bytes);
        }
    }

    fn put_pairs(&mut self, bytes: &[u8])
        ensures { self.new ≡ in_hex self.old bytes.now }
    {
        for byte in bytes {
            self.put_hex(u64::from(*byte), 2);
        }
    }

    // How long samples last at a rate, in seconds with four decimals, rounded to the nearest. At the
    // rate 0, nothing.
    pub fn put_seconds(&mut self, samples: u32, rate: u32)
        ensures { self.new ≡ add_of self.old (seconds_of samples rate) }
    {
        self.end = put_seconds(&mut self.bytes, self.end, samples, rate);
    }
}

// What does not fit is left out, so a `write!` of this page succeeds.
impl<const N: usize> fmt::Write for Page<N> {
    ghost write_str_gives = { λ p text q. q ≡ add_of p text };

    fn write_str(&mut self, text: &str) -> fmt::Result {
        self.put(text.as_bytes());
        Ok(())
    }
}

// The number's last digits, one for each place, from the last to the first.
fn spell(out: &mut [u8], number: u64, base: u64)
    requires base_1 { 0 < base }
    requires base_16 { base ≤ 16 }
    ensures { out.new ≡ last_digits base (length out.old) number }
{
    let mut rest = number;
    // By place: over `iter_mut().rev()` the proof was tried and did not close.
    for i in (0..out.len()).rev() {
        out[i] = glyph(rest % base);
        rest /= base;
    }
}

#[tactic(auto, unfolding(crate::specs::Digits::glyph_of, crate::specs::Digits::glyph_if))]
fn glyph(digit: u64) -> u8
    requires { digit < 16 }
    ensures { result ≡ glyph_of digit }
{
    if digit < 10 {
        b'0' + digit as u8
    } else {
        b'A' + (digit - 10) as u8
    }
}

// How many decimal digits a number has.
fn places(number: u64) -> usize
    ensures { result ≡ places_of number }
{
    // a match, for by its arms the proof goes
    match number.checked_ilog10() {
        None => 1,
        Some(power) => power as usize + 1,
    }
}
