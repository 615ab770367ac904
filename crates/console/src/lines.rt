// A reader of the programs' lines, R,rate / T,byte,carrier / W,ns,carrier / F,length / D, and of those
// that `tap --ext` adds. It takes one byte at a time: a line may be as long as it likes, and
// may come in any pieces.
ghost use Rattle.std.specs.Prelude.{◌≡◌, Bool, ◌&&◌, List, [], ℕ, map};
ghost use Rattle.console.specs.Lines.{call_of, is, numbers_call, bare_call, one_call, added_call, two_call, three_call, fill_call, cue_call, kept_call, bits_call, queue_call, string_call, typed_call, lapse_call, longest_of};
ghost use Rattle.console.specs.Fields.{least};
ghost use Rattle.console.specs.Parser.{parsed_of, answer_of, pushed_of, if_feed, line_if};

use crate::fields;
use crate::fields::Fields;

// What a line asks for.
#[derive(Clone, Copy)]
pub enum Call {
    Rate(u32),
    Typed {
        byte: u8,
        carrier: bool,
        // 16 where the line names none.
        outbox: usize,
    },
    Lapse {
        ns: u64,
        carrier: bool,
    },
    Fill(usize),
    ForcedData,
    // The digit's position.
    Cue(u8),
    // A byte for the string that is kept.
    Kept(u8),
    // The string that is kept is typed, with buffers of these lengths.
    String {
        carrier: bool,
        outbox: usize,
        codes: usize,
    },
    // The string that is kept is read as bits, into a buffer of this length.
    Bits(usize),
    // The string that is kept is taken as one frame.
    Frame,
    // The key that the last fill answered.
    Key,
    // A byte is queued for the sender.
    Queued(u8),
}

// What the bytes of a line so far come to.
#[derive(Clone, Copy)]
pub struct Parser {
    // `tap --ext`: an outbox length may follow the carrier flag, fills may be longer, and there are more lines.
    extended: bool,
    line: Fields<3>,
}

impl Parser {
    // Before the first byte of a line.
    pub fn new(extended: bool) -> Self
        ensures { result ≡ parsed_of extended [] }
    {
        Parser {
            extended,
            line: Fields::lettered(),
        }
    }

    // One byte more. A line feed ends the line, which may be a call, and the next line begins.
    pub fn push(&mut self, byte: u8) -> Option<Call>
        ensures value { result ≡ if_feed (is "\n" byte) (answer_of self.old) }
        ensures after { self.new ≡ pushed_of self.old byte }
        ensures of_line { (extended : Bool) (line : List ℕ) → self.old ≡ parsed_of extended line → result ≡ if_feed (is "\n" byte) (call_of extended line) }
        ensures line_after { (extended : Bool) (line : List ℕ) → self.old ≡ parsed_of extended line → self.new ≡ parsed_of extended (line_if (is "\n" byte) line byte) }
    {
        if byte == b'\n' {
            let call = self.finish();
            self.line = Fields::lettered();
            return call;
        }
        self.line.push(byte);
        None
    }

    // The line ends here: at its line feed, or at the end of the input.
    pub fn finish(&self) -> Option<Call>
        ensures value { result ≡ answer_of self.now }
        ensures of_line { (extended : Bool) (line : List ℕ) → self.now ≡ parsed_of extended line → result ≡ call_of extended line }
    {
        let (letter, numbers) = self.line.letter_and_numbers()?;
        numbers_call(self.extended, letter, numbers)
    }
}

// A whole line, without its line feed.
pub fn call_of(extended: bool, line: &[u8]) -> Option<Call>
    ensures { result ≡ call_of extended line.now }
{
    let mut parser = Parser::new(extended);
    for byte in line {
        parser.line.push(*byte);
    }
    parser.finish()
}

// The call of a letter and its numbers.
fn numbers_call(extended: bool, letter: u8, numbers: &[Option<u64>]) -> Option<Call>
    ensures { result ≡ numbers_call extended letter (map least numbers.now) }
{
    match numbers {
        [] => bare(extended, letter),
        [n] => one(extended, letter, *n),
        [n, m] => two(letter, *n, *m),
        [n, m, o] => three(extended, letter, *n, *m, *o),
        _ => None,
    }
}

// A letter and nothing else.
#[tactic(auto, unfolding(crate::specs::Lines::bare_call))]
fn bare(extended: bool, letter: u8) -> Option<Call>
    ensures { result ≡ bare_call (is "D" letter) (extended && is "U" letter) (extended && is "K" letter) }
{
    match letter {
        b'D' => Some(Call::ForcedData),
        b'U' if extended => Some(Call::Frame),
        b'K' if extended => Some(Call::Key),
        _ => None,
    }
}

#[tactic(auto, unfolding(crate::specs::Lines::one_call))]
fn one(extended: bool, letter: u8, n: Option<u64>) -> Option<Call>
    ensures { result ≡ one_call (is "R" letter) (is "F" letter) extended letter (least n) }
{
    match letter {
        b'R' => Some(Call::Rate(fields::rate(n))),
        b'F' => fill(extended, n),
        _ if extended => added(letter, n),
        _ => None,
    }
}

// The lines of one number that `tap --ext` adds.
#[tactic(auto, unfolding(crate::specs::Lines::added_call))]
fn added(letter: u8, n: Option<u64>) -> Option<Call>
    ensures { result ≡ added_call (is "C" letter) (is "M" letter) (is "B" letter) (is "Q" letter) (least n) }
{
    match letter {
        b'C' => cue(n),
        b'M' => kept(n),
        b'B' => bits(n),
        b'Q' => queue(n),
        _ => None,
    }
}

#[tactic(auto, unfolding(crate::specs::Lines::two_call))]
fn two(letter: u8, n: Option<u64>, m: Option<u64>) -> Option<Call>
    ensures { result ≡ two_call (is "T" letter) (is "W" letter) (least n) (least m) }
{
    match letter {
        b'T' => typed(n, m, Some(16)),
        b'W' => lapse(n, m),
        _ => None,
    }
}

#[tactic(auto, unfolding(crate::specs::Lines::three_call))]
fn three(extended: bool, letter: u8, n: Option<u64>, m: Option<u64>, o: Option<u64>) -> Option<Call>
    ensures { result ≡ three_call (extended && is "T" letter) (extended && is "S" letter) (least n) (least m) (least o) }
{
    match letter {
        b'T' if extended => typed(n, m, o),
        b'S' if extended => string(n, m, o),
        _ => None,
    }
}

#[tactic(auto, unfolding(crate::specs::Lines::fill_call, crate::specs::Lines::fill_if))]
fn fill(extended: bool, length: Option<u64>) -> Option<Call>
    ensures { result ≡ fill_call extended (least length) }
{
    Some(Call::Fill(fields::length(length, longest(extended))?))
}

// The samples of one fill at most.
fn longest(extended: bool) -> u64
    ensures { result ≡ longest_of extended }
{
    if extended { 70000 } else { 16384 }
}

#[tactic(auto, unfolding(crate::specs::Lines::cue_call, crate::specs::Lines::call_if))]
fn cue(position: Option<u64>) -> Option<Call>
    ensures { result ≡ cue_call (least position) }
{
    Some(Call::Cue(fields::byte(position)?))
}

#[tactic(auto, unfolding(crate::specs::Lines::kept_call, crate::specs::Lines::call_if))]
fn kept(byte: Option<u64>) -> Option<Call>
    ensures { result ≡ kept_call (least byte) }
{
    Some(Call::Kept(fields::byte(byte)?))
}

#[tactic(auto, unfolding(crate::specs::Lines::bits_call, crate::specs::Lines::call_if))]
fn bits(room: Option<u64>) -> Option<Call>
    ensures { result ≡ bits_call (least room) }
{
    Some(Call::Bits(fields::length(room, 64)?))
}

#[tactic(auto, unfolding(crate::specs::Lines::queue_call, crate::specs::Lines::call_if))]
fn queue(byte: Option<u64>) -> Option<Call>
    ensures { result ≡ queue_call (least byte) }
{
    Some(Call::Queued(fields::byte(byte)?))
}

#[tactic(auto, unfolding(crate::specs::Lines::string_call, crate::specs::Lines::string_if))]
fn string(carrier: Option<u64>, outbox: Option<u64>, codes: Option<u64>) -> Option<Call>
    ensures { result ≡ string_call (least carrier) (least outbox) (least codes) }
{
    Some(Call::String {
        carrier: fields::flag(carrier)?,
        outbox: fields::length(outbox, 1200)?,
        codes: fields::length(codes, 1200)?,
    })
}

#[tactic(auto, unfolding(crate::specs::Lines::typed_call, crate::specs::Lines::typed_if))]
fn typed(byte: Option<u64>, carrier: Option<u64>, outbox: Option<u64>) -> Option<Call>
    ensures { result ≡ typed_call (least byte) (least carrier) (least outbox) }
{
    Some(Call::Typed {
        byte: fields::byte(byte)?,
        carrier: fields::flag(carrier)?,
        outbox: fields::length(outbox, 16)?,
    })
}

#[tactic(auto, unfolding(crate::specs::Lines::lapse_call, crate::specs::Lines::lapse_if))]
fn lapse(ns: Option<u64>, carrier: Option<u64>) -> Option<Call>
    ensures { result ≡ lapse_call (least ns) (least carrier) }
{
    Some(Call::Lapse {
        ns: ns?,
        carrier: fields::flag(carrier)?,
    })
}
