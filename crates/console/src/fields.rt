// A reader of a line of fields parted by commas, one byte at a time: a line may be as long as it likes, and
// may come in any pieces. The fields are numbers in decimal digits; the first may be a letter.
ghost use Rattle.std.specs.Prelude.{◌≡◌, ◌≤◌, SomeIff, eqb, min, option_map};
ghost use Rattle.std.specs.Option.{option_zip};
ghost use Rattle.console.specs.Fields.{least, grown, lettered, numbered, pushed, numbers};

use std::marker::Model;

// Where in a line the next byte stands.
#[derive(Clone, Copy)]
pub enum Place {
    // Before the letter.
    Start,
    // Behind it.
    Letter,
    // Before a number's first digit.
    Empty,
    // Behind a digit.
    Digit,
}

// What the bytes of a line so far come to: a letter, where the line has one, and at most N numbers.
#[derive(Clone, Copy)]
pub struct Fields<const N: usize> {
    letter: Option<u8>,
    // The first of them are the line's, each None where it is beyond 64 bits; the others are None.
    numbers: [Option<u64>; N],
    count: usize,
    // None where the line is none, whatever follows.
    place: Option<Place>,
}

impl<const N: usize> Model for Fields<N> {
    ghost use Rattle.std.specs.Prelude.{◌≡◌, ◌≤◌, ◌<◌, ◌-◌, ◌++◌, length, take, drop, replicate, Some, None};
    ghost use Rattle.console.specs.Fields.{Read};
    ghost use Rattle.console.specs.declared.fields.Place.TheVariants.{Digit};
    ghost use Rattle.console.specs.Held.{given_back};

    ghost Value = { Read };

    ghost view = { λ f. record { letter = f.letter; numbers = take f.count f.numbers; place = f.place } };

    ghost invariant = { λ f. (f.count ≤ N) × (f.place ≡ Some Digit → 0 < f.count) × (length f.numbers ≡ N) × (drop f.count f.numbers ≡ replicate (N - f.count) None) };

    ghost inverse = { λ r. record { letter = r.letter; numbers = r.numbers ++ replicate (N - length r.numbers) None; count = length r.numbers; place = r.place } };

    ghost inverse_ok = { λ f h. given_back (λ ns count. record { letter = f.letter; numbers = ns; count = count; place = f.place }) N f.count f.numbers h.0 h.2 h.3 };
}

impl<const N: usize> Fields<N> {
    // Before the first byte of a line that begins with a letter.
    pub fn lettered() -> Self
        ensures { result ≡ lettered }
    {
        Fields {
            letter: None,
            numbers: [None; N],
            count: 0,
            place: Some(Place::Start),
        }
    }

    // And of one of numbers alone.
    pub fn numbered() -> Self
        ensures { result ≡ numbered }
    {
        Fields {
            letter: None,
            numbers: [None; N],
            count: 0,
            place: Some(Place::Empty),
        }
    }

    // One byte more, which is no line feed.
    #[inline(always)]
    #[tactic(auto, unfolding(crate::specs::Fields::pushed, crate::specs::Fields::pushed_at))]
    pub fn push(&mut self, byte: u8)
        ensures { self.new ≡ pushed N self.old byte }
    {
        let Some(place) = self.place else {
            return;
        };
        self.place = match (place, byte) {
            (Place::Start, b',') => None,
            (Place::Start, letter) => {
                self.letter = Some(letter);
                Some(Place::Letter)
            }
            (Place::Letter, b',') | (Place::Digit, b',') => Some(Place::Empty),
            (Place::Empty, b'0'..=b'9') if self.count < N => {
                self.numbers[self.count] = Some(u64::from(byte - b'0'));
                self.count += 1;
                Some(Place::Digit)
            }
            (Place::Digit, b'0'..=b'9') => {
                let last = self.count - 1;
                self.numbers[last] = grown(self.numbers[last], byte - b'0');
                Some(Place::Digit)
            }
            _ => None,
        };
    }

    // The numbers, if the line ends here: at its line feed, or at the end of the input.
    pub fn numbers(&self) -> Option<&[Option<u64>]>
        ensures { option_map (λ s. s.now) result ≡ numbers self.now }
    {
        match self.place? {
            Place::Letter | Place::Digit => Some(&self.numbers[..self.count]),
            Place::Start | Place::Empty => None,
        }
    }

    // The same of a line that begins with a letter, and the letter.
    pub fn letter_and_numbers(&self) -> Option<(u8, &[Option<u64>])>
        ensures { option_map (λ p. (p.0, p.1.now)) result ≡ option_zip self.now.letter (numbers self.now) }
    {
        Some((self.letter?, self.numbers()?))
    }
}

// The number with one digit more, and none beyond 64 bits.
#[inline(always)]
#[tactic(auto, unfolding(crate::specs::Fields::grown, crate::specs::Fields::in_64, crate::specs::Fields::in_64_if))]
pub fn grown(number: Option<u64>, digit: u8) -> Option<u64>
    ensures { result ≡ grown number digit }
{
    number?.checked_mul(10)?.checked_add(u64::from(digit))
}

// A byte.
pub fn byte(number: Option<u64>) -> Option<u8>
    ensures { SomeIff result (least number ≤ 255) (least number) }
{
    u8::try_from(number?).ok()
}

// A flag, 0 or 1.
pub fn flag(number: Option<u64>) -> Option<bool>
    ensures { SomeIff result (least number ≤ 1) (eqb (least number) 1) }
{
    match number? {
        0 => Some(false),
        1 => Some(true),
        _ => None,
    }
}

// A length, up to the longest.
pub fn length(number: Option<u64>, longest: u64) -> Option<usize>
    ensures { SomeIff result (least number ≤ longest) (least number) }
{
    let length = number?;
    if length <= longest {
        Some(length as usize)
    } else {
        None
    }
}

// A rate: one too long for the type is as far out of the limits as the type goes.
pub fn rate(number: Option<u64>) -> u32
    ensures { result ≡ min (least number) 4294967295 }
{
    match number {
        Some(rate) => u32::try_from(rate).unwrap_or(u32::MAX),
        None => u32::MAX,
    }
}
