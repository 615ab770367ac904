// Why a call is declined: the causes of all calls, with the numbers by which they are told.
#![tactic(auto)]

ghost use Rattle.std.specs.Prelude.{◌≡◌};
ghost use Rattle.refusal.specs.Refusal.{number_of, answer_number};

// 4, which a full line had, and 5, which a fill in Connected had, are given no more.
#[derive(Clone, Copy)]
pub enum Refusal {
    Rate = 1,
    Outbox = 2,
    Length = 3,
    Unsound = 6,
    Position = 7,
    StringLength = 8,
    StringRoom = 9,
    Digits = 10,
    // the start bit is no space, or the stop bit no mark
    BadFrame = 11,
    QueueFull = 12,
    TooLong = 13,
    Start = 14,
    Address = 15,
}

impl From<Refusal> for u8 {
    ghost from_gives = { λ refusal number. number ≡ number_of refusal };

    fn from(refusal: Refusal) -> u8 {
        refusal as u8
    }
}

// The number of an answer: 0 where the call is not declined.
pub fn answer_number<T>(answer: &Result<T, Refusal>) -> u8
    ensures { result ≡ answer_number answer.now }
{
    match answer {
        Ok(_) => 0,
        Err(refusal) => u8::from(*refusal),
    }
}
