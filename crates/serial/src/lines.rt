// A reader of the lines of `serial`, one byte at a time: a line may be as long as it likes, and may
// come in any pieces.
ghost use Rattle.std.specs.Prelude.{◌≡◌, List, [], ◌∷◌, ◌++◌, ℕ, min, map};
ghost use Rattle.console.specs.Fields.{least};
ghost use Rattle.serial.specs.Lines.{line_of, next_of, answer_of, asked_of, numbers_asked, one_asked, two_asked, write_asked, write_of, lapse_asked, fill_asked};

use console::fields;
use console::fields::Fields;

// What the bytes of a line so far come to.
#[derive(Clone, Copy)]
pub struct Line {
    fields: Fields<4>,
}

#[derive(Clone, Copy)]
pub enum Asked {
    Rate(u32),
    Read(u8),
    Write {
        address: u8,
        value: u8,
        carrier: bool,
        // 16 where the line names none
        outbox: usize,
    },
    Lapse {
        ns: u64,
        carrier: bool,
    },
    Fill(usize),
}

impl Line {
    // Before the first byte of a line.
    pub fn new() -> Self
        ensures { result ≡ line_of [] }
    {
        Line {
            fields: Fields::lettered(),
        }
    }

    // One byte more, which is no line feed.
    pub fn push(&mut self, byte: u8)
        ensures value { self.new ≡ next_of self.old byte }
        ensures of_line { (line : List ℕ) → self.old ≡ line_of line → self.new ≡ line_of (line ++ byte ∷ []) }
    {
        self.fields.push(byte);
    }

    // The line ends here: at its line feed, or at the end of the input.
    pub fn asked(&self) -> Option<Asked>
        ensures value { result ≡ answer_of self.now }
        ensures of_line { (line : List ℕ) → self.now ≡ line_of line → result ≡ asked_of line }
    {
        let (letter, numbers) = self.fields.letter_and_numbers()?;
        numbers_asked(letter, numbers)
    }
}

// What a letter and its numbers ask for.
fn numbers_asked(letter: u8, numbers: &[Option<u64>]) -> Option<Asked>
    ensures { result ≡ numbers_asked letter (map least numbers.now) }
{
    match numbers {
        [n] => one(letter, *n),
        [ns, carrier] => two(letter, *ns, *carrier),
        [address, value, carrier] => write(letter, *address, *value, *carrier, Some(16)),
        [address, value, carrier, outbox] => write(letter, *address, *value, *carrier, *outbox),
        _ => None,
    }
}

#[tactic(auto, unfolding(crate::specs::Lines::one_asked))]
fn one(letter: u8, n: Option<u64>) -> Option<Asked>
    ensures { result ≡ one_asked letter (least n) }
{
    match letter {
        b'R' => Some(Asked::Rate(fields::rate(n))),
        b'I' => Some(Asked::Read(address(n))),
        b'F' => fill(n),
        _ => None,
    }
}

#[tactic(auto, unfolding(crate::specs::Lines::two_asked))]
fn two(letter: u8, ns: Option<u64>, carrier: Option<u64>) -> Option<Asked>
    ensures { result ≡ two_asked letter (least ns) (least carrier) }
{
    match letter {
        b'W' => lapse(ns, carrier),
        _ => None,
    }
}

#[tactic(auto, unfolding(crate::specs::Lines::write_asked))]
fn write(
    letter: u8,
    address: Option<u64>,
    value: Option<u64>,
    carrier: Option<u64>,
    outbox: Option<u64>,
) -> Option<Asked>
    ensures { result ≡ write_asked letter (least address) (least value) (least carrier) (least outbox) }
{
    match letter {
        b'O' => write_of(address, value, carrier, outbox),
        _ => None,
    }
}

// An address too long for the type is as far above the last one as the type goes.
fn address(number: Option<u64>) -> u8
    ensures { result ≡ min (least number) 255 }
{
    fields::byte(number).unwrap_or(255)
}

#[tactic(auto, unfolding(crate::specs::Lines::write_of))]
fn write_of(
    number: Option<u64>,
    value: Option<u64>,
    carrier: Option<u64>,
    outbox: Option<u64>,
) -> Option<Asked>
    ensures { result ≡ write_of (least number) (least value) (least carrier) (least outbox) }
{
    Some(Asked::Write {
        address: address(number),
        value: fields::byte(value)?,
        carrier: fields::flag(carrier)?,
        outbox: fields::length(outbox, 16)?,
    })
}

#[tactic(auto, unfolding(crate::specs::Lines::lapse_asked))]
fn lapse(ns: Option<u64>, carrier: Option<u64>) -> Option<Asked>
    ensures { result ≡ lapse_asked (least ns) (least carrier) }
{
    Some(Asked::Lapse {
        ns: ns?,
        carrier: fields::flag(carrier)?,
    })
}

#[tactic(auto, unfolding(crate::specs::Lines::fill_asked))]
fn fill(length: Option<u64>) -> Option<Asked>
    ensures { result ≡ fill_asked (least length) }
{
    Some(Asked::Fill(fields::length(length, 16384)?))
}
