// A reader of the lines of `bill`, one byte at a time: a line may be as long as it likes, and may
// come in any pieces.
ghost use Rattle.std.specs.Prelude.{◌≡◌, List, [], ◌∷◌, ◌++◌, ℕ, min, map};
ghost use Rattle.console.specs.Fields.{least};
ghost use Rattle.bill.specs.Lines.{largest, line_of, next_of, answer_of, asked_of, numbers_asked};

use console::fields::Fields;

// What the bytes of a line so far come to.
#[derive(Clone, Copy)]
pub struct Line {
    fields: Fields<2>,
}

#[derive(Clone, Copy)]
pub enum Asked {
    // what a call of so many milliseconds costs
    Time(u64),
    // and from this second of the week on
    From { ms: u64, start: u64 },
}

impl Line {
    // Before the first byte of a line.
    pub fn new() -> Self
        ensures { result ≡ line_of [] }
    {
        Line {
            fields: Fields::numbered(),
        }
    }

    // One byte more, which is no line feed.
    pub fn push(&mut self, byte: u8)
        ensures value { self.new ≡ next_of self.old byte }
        ensures of_line { (line : List ℕ) → self.old ≡ line_of line → self.new ≡ line_of (line ++ byte ∷ []) }
    {
        self.fields.push(byte);
    }

    // The line ends here: at its line feed, or at the end of the input.
    pub fn asked(&self) -> Option<Asked>
        ensures value { result ≡ answer_of self.now }
        ensures of_line { (line : List ℕ) → self.now ≡ line_of line → result ≡ asked_of line }
    {
        numbers_asked(self.fields.numbers()?)
    }
}

// What the numbers ask for.
fn numbers_asked(numbers: &[Option<u64>]) -> Option<Asked>
    ensures { result ≡ numbers_asked (map least numbers.now) }
{
    match numbers {
        [ms] => Some(Asked::Time(held(*ms))),
        [ms, start] => Some(Asked::From {
            ms: held(*ms),
            start: held(*start),
        }),
        _ => None,
    }
}

// The number, or the largest of 64 bits.
fn held(number: Option<u64>) -> u64
    ensures { result ≡ min (least number) largest }
{
    number.unwrap_or(u64::MAX)
}
