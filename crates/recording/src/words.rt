// The programs' words, and what a program says where one is not accepted.
use console::fields;
use console::fields::Fields;
use schedule::Rate;
use std::env::{Env, FillError};
use std::fmt;
use std::fmt::Write;
use text::Page;

// DIGITS RATE FILE.
#[derive(Drop)]
pub struct Words {
    pub digits: Page<76>,
    pub rate: Rate,
    pub path: Page<4096>,
}

impl Words {
    // The first three words that the program was started with.
    pub fn read(words: &impl Env) -> Result<Words, Wrong> {
        let digits = word::<76>(words, 1).map_err(|_| Wrong::LongDigits)?;
        if !all_dialled(digits.text()) {
            return Err(Wrong::NoKey);
        }
        let rate = rate(words).and_then(Rate::new).ok_or(Wrong::NoRate)?;
        let path = word::<4096>(words, 3).map_err(|_| Wrong::LongPath)?;
        Ok(Words { digits, rate, path })
    }
}

// What is wrong with a word.
#[derive(Clone, Copy)]
pub enum Wrong {
    LongDigits,
    NoKey,
    NoRate,
    LongPath,
    LongText,
}

impl fmt::Display for Wrong {
    fn fmt<W: fmt::Write>(&self, f: &mut fmt::Formatter<W>) -> fmt::Result {
        f.write_str(match self {
            Wrong::LongDigits => {
                "DIGITS has more than 76 bytes; it takes up to 76 of 0-9, A-D, a-d, * and #"
            }
            Wrong::NoKey => {
                "DIGITS has a byte that is no key; it takes up to 76 of 0-9, A-D, a-d, * and #"
            }
            Wrong::NoRate => "RATE is no whole number from 8000 to 192000, in decimal digits",
            Wrong::LongPath => {
                "FILE is too long; it takes a path of up to 4095 bytes that can be written"
            }
            Wrong::LongText => "TEXT has more than 4096 bytes; it takes up to 4096",
        })
    }
}

impl Wrong {
    pub fn say(self, errors: &impl Print, program: &[u8]) {
        let mut line = Page::<128>::new();
        let _ = write!(line, "{self}");
        say(errors, program, line.text());
    }
}

// A line of a program's, behind its name.
pub fn say(errors: &impl Print, program: &[u8], line: &[u8]) {
    let mut whole = Page::<128>::new();
    whole.put(program);
    whole.put(b": ");
    whole.put(line);
    whole.put_byte(b'\n');
    let _ = errors.write_all(whole.text());
}

// The word at a place, if it has at most N bytes.
pub fn word<const N: usize>(words: &impl Env, place: usize) -> Result<Page<N>, FillError> {
    let mut bytes = [0u8; N];
    let count = words.arg(place, &mut bytes)?;
    let mut word = Page::new();
    word.put(&bytes[..count]);
    Ok(word)
}

// Whether a dial line would drop none of the bytes.
fn all_dialled(word: &[u8]) -> bool {
    let digits = keys::dialled(word);
    digits.len == word.len()
}

// The second argument as a rate: the number of a word of decimal digits, or as much as the type takes; None where it is none.
fn rate(words: &impl Env) -> Option<u32> {
    let mut word = [0u8; 64];
    let count = words.arg(2, &mut word).ok()?;
    rate_of(&word[..count])
}

fn rate_of(word: &[u8]) -> Option<u32> {
    let mut line = Fields::<1>::numbered();
    for byte in word {
        line.push(*byte);
    }
    match line.numbers()? {
        [rate] => Some(fields::rate(*rate)),
        _ => None,
    }
}
