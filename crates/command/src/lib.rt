// The command line: at.rs's `cmd_buf` as an array with a length, the line uppercased, and the
// command that it is.
#![tactic(auto)]

ghost use Rattle.std.specs.Prelude.{◌≡◌, ◌-◌, MatchOption, true, false, length, drop};
ghost use Rattle.command.specs.Line.{empty_line, typed, sound_line, pushed, uppercased};
ghost use Rattle.command.specs.Command.{begins, is, is_digit, setting_of, number_in, command_of};

// A command line: the first `len` of its bytes, and whether more were typed than it holds. There is
// no heap, and `sound` has to tell of any length, so it is an array with a length and no `Vec`.
#[derive(Clone, Copy)]
pub struct Line {
    pub bytes: [u8; 80],
    pub len: usize,
    pub ran_over: bool,
}

// A command for each arm of at.rs's `execute`, and the two of S12.
#[derive(Clone, Copy)]
pub enum Command {
    At,
    Atz,
    Ati,
    Ata,
    Ath,
    Ato,
    Atdt,
    AskS12,
    SetS12(u8),
}

impl Line {
    pub fn new() -> Self
        ensures { result ≡ empty_line }
    {
        Line {
            bytes: [0; 80],
            len: 0,
            ran_over: false,
        }
    }

    // The line's part of 01's "Sound".
    #[tactic(auto, unfolding(crate::specs::Line::sound_line))]
    pub fn sound(self) -> bool
        ensures { result ≡ sound_line self }
    {
        self.len <= 80 && !(self.ran_over && self.len < 80)
    }

    // The bytes typed. A `len` that no sound line has takes all.
    pub fn typed(&self) -> &[u8]
        ensures { result.now ≡ typed self.now }
    {
        self.bytes.get(..self.len).unwrap_or(&self.bytes)
    }

    // One byte more. A full line drops it, and remembers that it ran over. By value, as 01 has it of
    // the processor, which holds the line.
    #[tactic(auto, unfolding(crate::specs::Line::pushed))]
    pub fn push(mut self, byte: u8) -> Self
        ensures { result ≡ pushed self byte }
    {
        if self.len < 80 {
            self.bytes[self.len] = byte;
            self.len += 1;
        } else {
            self.ran_over = true;
        }
        self
    }

    pub fn to_uppercase(self) -> Self
        ensures { result ≡ uppercased self }
    {
        // In place: of an array's `map` the compiler makes 80 single turns, and of this loop a few of many bytes each.
        let mut bytes = self.bytes;
        for byte in &mut bytes {
            *byte = ascii::uppercase(*byte);
        }
        Line { bytes, ..self }
    }

    fn is(&self, text: &[u8]) -> bool
        ensures { result ≡ is text.now (typed self.now) }
    {
        self.typed() == text
    }

    // What stands after a text with which the line begins.
    #[tactic(auto, using(crate::proofs::Begins::prefix))]
    fn after(&self, text: &[u8]) -> Option<&[u8]>
        ensures { MatchOption result
            (begins text.now (typed self.now) ≡ false)
            (λ rest. (begins text.now (typed self.now) ≡ true) × (rest.now ≡ drop (length text.now) (typed self.now))) }
    {
        self.typed().strip_prefix(text)
    }

    // Which command an uppercased line is: at.rs's arms, and S12's lines. One that ran over is none.
    // A `match` on the bytes was tried: its last arm leaves 28 goals, which nothing closes.
    #[tactic(auto, unfolding(crate::specs::Command::command_of))]
    pub fn command(self) -> Option<Command>
        ensures { result ≡ command_of self }
    {
        if self.ran_over {
            None
        } else if self.is(b"AT") {
            Some(Command::At)
        } else if self.is(b"ATZ") {
            Some(Command::Atz)
        } else if self.is(b"ATI") {
            Some(Command::Ati)
        } else if self.is(b"ATA") {
            Some(Command::Ata)
        } else if self.is(b"ATH") || self.is(b"ATH0") {
            Some(Command::Ath)
        } else if self.is(b"ATO") || self.is(b"ATO0") {
            Some(Command::Ato)
        } else if self.after(b"ATDT").is_some() {
            Some(Command::Atdt)
        } else if self.is(b"ATS12?") {
            Some(Command::AskS12)
        } else if let Some(digits) = self.after(b"ATS12=") {
            setting_of(digits)
        } else {
            None
        }
    }
}

// What stands after ATS12=: one to three digits up to 255 are a setting.
#[tactic(auto, unfolding(crate::specs::Command::setting_of, crate::specs::Command::is_setting))]
fn setting_of(digits: &[u8]) -> Option<Command>
    ensures { result ≡ setting_of digits.now }
{
    if digits.is_empty() || digits.len() > 3 {
        return None;
    }
    Some(Command::SetS12(decimal(digits)?))
}

// The number that decimal digits up to 255 are.
fn decimal(bytes: &[u8]) -> Option<u8>
    ensures { result ≡ number_in bytes.now }
{
    let mut value: u8 = 0;
    for byte in bytes {
        value = value.checked_mul(10)?.checked_add(digit(*byte)?)?;
    }
    Some(value)
}

fn digit(byte: u8) -> Option<u8>
    ensures { MatchOption result (is_digit byte ≡ false) (λ value. (is_digit byte ≡ true) × (value ≡ byte - 48)) }
{
    match byte {
        b'0'..=b'9' => Some(byte - b'0'),
        _ => None,
    }
}
