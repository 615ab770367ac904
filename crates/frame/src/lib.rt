// Asynchronous framing, and the payloads that the stages send. A mark, 01's bit 1, is `true`.
#![tactic(auto)]

ghost use Rattle.std.specs.Prelude.{◌≡◌, ◌<◌, ltb, length};
ghost use Rattle.frame.specs.Frame.{data_bit, frame_of, framed, bit_at};

// A caller's proof sees through a constant: `payload_bit(&CI_PAYLOAD, i)` is bit i of `ci_payload`, and so for the others.
pub const CI_PAYLOAD: [u8; 6] = *b"CICICI";

pub const CMJM_PAYLOAD: [u8; 8] = *b"CMJMCMJM";

pub const CJ_PAYLOAD: [u8; 6] = *b"CJCJCJ";

pub const TRAINING_PAYLOAD: [u8; 30] = [0x55; 30];

// Bit `index` of a byte, counted from 0, the lowest.
fn data_bit(b: u8, index: u32) -> bool
    requires { index < 8 }
    ensures { result ≡ data_bit b index }
{
    (b >> index) % 2 == 1
}

// A byte's frame: a space to start, the data bits lowest first, a mark to stop. Written out: `array::from_fn` was tried, but its
// contract leads the closure's state from call to call, and a proof along that chain is longer than these ten rows.
#[tactic(auto, unfolding(crate::specs::Frame::frame_of))]
pub fn frame_byte(b: u8) -> [bool; 10]
    ensures { result ≡ frame_of b }
{
    [
        false,
        data_bit(b, 0),
        data_bit(b, 1),
        data_bit(b, 2),
        data_bit(b, 3),
        data_bit(b, 4),
        data_bit(b, 5),
        data_bit(b, 6),
        data_bit(b, 7),
        true,
    ]
}

// Whether the payload's frames have a bit `index`, counted from 0.
pub fn has_bit(payload: &[u8], index: usize) -> bool
    ensures { result ≡ ltb index (length (framed payload.now)) }
{
    index / 10 < payload.len()
}

// Bit `index` of the payload's frames, counted from 0; where there is none it reads as a mark.
pub fn payload_bit(payload: &[u8], index: usize) -> bool
    ensures { result ≡ bit_at payload.now index }
{
    match payload.get(index / 10) {
        Some(byte) => frame_byte(*byte)[index % 10],
        None => true,
    }
}
