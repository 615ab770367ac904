// The keypad of Q.23, and the digits of a dial line.
#![tactic(auto)]

ghost use Rattle.std.specs.Prelude.{◌≡◌, [], take};
ghost use Rattle.keys.specs.Keys.{place_of, is_key, tones_of, NamesKey, all_keys, held, with_digit, dialled_of};

// Row by row, four keys to a row.
const KEYPAD: [u8; 16] = *b"123A456B789C*0#D";

const ROWS: [f64; 4] = [697.0, 770.0, 852.0, 941.0];

const COLS: [f64; 4] = [1209.0, 1336.0, 1477.0, 1633.0];

// A key, by its place on the keypad: row and column, from 0.
#[derive(Clone, Copy)]
pub struct Key {
    pub row: u8,
    pub column: u8,
}

// The two frequencies of a key, its row's and its column's, and the key.
#[derive(Clone, Copy)]
pub struct Tones {
    pub low: f64,
    pub high: f64,
    pub key: Key,
}

// The digits of a call: the first `len` bytes, and zeros behind them. C lends the memory of a set, so any count may stand there.
#[derive(Clone, Copy)]
pub struct Digits {
    pub keys: [u8; 76],
    pub len: usize,
}

impl Digits {
    // Those of a call to no number.
    #[tactic(auto, unfolding(crate::specs::Keys::padded))]
    pub fn new() -> Digits
        ensures { result ≡ held [] }
    {
        Digits {
            keys: [0; 76],
            len: 0,
        }
    }

    // The digits that are held. A count beyond the array is that of the whole array.
    pub fn held(&self) -> &[u8]
        ensures { result.now ≡ take self.now.len self.now.keys }
    {
        &self.keys[..self.len.min(76)]
    }

    // One digit more, where there is room for it.
    fn push(&mut self, digit: u8)
        ensures { self.new ≡ with_digit self.old digit }
    {
        if self.len < 76 {
            self.keys[self.len] = digit;
            self.len += 1;
        }
    }
}

// Where a key stands on the keypad, counted row by row.
fn key_place(b: u8) -> Option<usize>
    ensures { result ≡ place_of b }
{
    KEYPAD.iter().position(|key| *key == b)
}

#[tactic(auto, unfolding(crate::specs::Keys::is_key))]
pub fn is_key(b: u8) -> bool
    ensures { result ≡ is_key b }
{
    key_place(b).is_some()
}

// The tones of a key; none for a byte that is no key.
pub fn dtmf_freqs(b: u8) -> Option<Tones>
    ensures value { result ≡ tones_of b }
    ensures names_key { NamesKey b result }
{
    let place = key_place(b)?;
    let row = place / 4;
    let column = place % 4;
    Some(Tones {
        low: ROWS[row],
        high: COLS[column],
        key: Key {
            row: row as u8,
            column: column as u8,
        },
    })
}

// The digits of a dial line's bytes after ATDT: uppercased, others dropped, order kept. A line has no more than 76 such bytes.
#[tactic(auto, using(crate::proofs::Line::steps))]
pub fn dialled(line: &[u8]) -> Digits
    ensures { result ≡ dialled_of line.now }
{
    let mut digits = Digits::new();
    for b in line {
        let b = ascii::uppercase(*b);
        if is_key(b) {
            digits.push(b);
        }
    }
    digits
}

// Each byte is asked, also behind one that is no key: with no branch many are asked at once.
pub fn all_keys(digits: &[u8]) -> bool
    ensures { result ≡ all_keys digits.now }
{
    let mut all = true;
    for b in digits {
        all = all & is_key(*b);
    }
    all
}
