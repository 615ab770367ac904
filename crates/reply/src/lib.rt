// The result codes and their texts. at.rs answers with strings; here a reply is codes, and a
// writer puts a code's text into a buffer.
#![tactic(auto)]

ghost use Rattle.std.specs.Prelude.{◌≡◌, ◌≢◌, length, MatchResult};
ghost use Rattle.reply.specs.declared.Code as declared;
ghost use Rattle.reply.specs.Codes.{number_of, first_of, second_of};
ghost use Rattle.ascii.specs.Front.{put, put_length};
ghost use Rattle.reply.specs.Texts.{three_digits, text_of};

// The numbers are those by which a reply is told.
#[derive(Clone, Copy)]
pub enum Code {
    Ok = 1,
    Connect = 2,
    NoCarrier = 3,
    Error = 4,
    Identification = 5,
    // The S12 that the set then holds.
    S12 = 6,
}

// A number that is no code's.
#[derive(Clone, Copy)]
pub struct UnknownCode;

// Rust's `Option<Response>`: no command gives more than two lines. Three cases with a name each
// are plainer than an `Option` of a code beside an `Option` of another.
#[derive(Clone, Copy)]
pub enum Reply {
    None,
    One(Code),
    Two(Code, Code),
}

impl From<Code> for u8 {
    ghost from_gives = { λ code number. number ≡ number_of code };

    fn from(code: Code) -> u8 {
        code as u8
    }
}

impl TryFrom<u8> for Code {
    type Error = UnknownCode;

    ghost try_from_gives = { λ number answer. MatchResult answer (λ code. number ≡ number_of code) (λ _. (code : declared.Code) → number ≢ number_of code) };

    fn try_from(number: u8) -> Result<Code, UnknownCode> {
        match number {
            1 => Ok(Code::Ok),
            2 => Ok(Code::Connect),
            3 => Ok(Code::NoCarrier),
            4 => Ok(Code::Error),
            5 => Ok(Code::Identification),
            6 => Ok(Code::S12),
            _ => Err(UnknownCode),
        }
    }
}

impl Code {
    // Writes the code's text at the front of `out` and answers its length; S12's is `s12`. By 01 a
    // short `out` gives 0 and stays as it was.
    #[tactic(auto, unfolding(crate::specs::Texts::text_of))]
    pub fn write(self, s12: u8, out: &mut [u8]) -> usize
        ensures value { result ≡ put_length (text_of (number_of self) s12) (length out.old) }
        ensures out_after { out.new ≡ put (text_of (number_of self) s12) out.old }
    {
        match self {
            Code::Ok => ascii::put_front(b"OK", out),
            Code::Connect => ascii::put_front(b"CONNECT 300", out),
            Code::NoCarrier => ascii::put_front(b"NO CARRIER", out),
            Code::Error => ascii::put_front(b"ERROR", out),
            Code::Identification => ascii::put_front(b"modem-core Bell 103 v1.0.0", out),
            Code::S12 => ascii::put_front(&digits(s12), out),
        }
    }
}

impl Reply {
    // The number of the first code, 0 for none.
    pub fn first(self) -> u8
        ensures { result ≡ first_of self }
    {
        match self {
            Reply::None => 0,
            Reply::One(code) | Reply::Two(code, _) => code.into(),
        }
    }

    // The number of the second code, 0 for none.
    pub fn second(self) -> u8
        ensures { result ≡ second_of self }
    {
        match self {
            Reply::None | Reply::One(_) => 0,
            Reply::Two(_, code) => code.into(),
        }
    }
}

// The three digits of S12.
#[tactic(auto, unfolding(crate::specs::Texts::three_digits))]
fn digits(s12: u8) -> [u8; 3]
    ensures { result ≡ three_digits s12 }
{
    [b'0' + s12 / 100, b'0' + s12 / 10 % 10, b'0' + s12 % 10]
}

// Writes the text of the code with this number at the front of `out` and answers its length. By 01
// a short `out` or another number gives 0 and leaves `out` as it was.
pub fn write_reply(code: u8, s12: u8, out: &mut [u8]) -> usize
    ensures value { result ≡ put_length (text_of code s12) (length out.old) }
    ensures out_after { out.new ≡ put (text_of code s12) out.old }
{
    match Code::try_from(code) {
        Ok(code) => code.write(s12, out),
        Err(_) => 0,
    }
}
