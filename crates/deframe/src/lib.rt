// Bits back into bytes: one frame's inverse, and a reader that goes over a list of bits and keeps its place. A mark, 01's bit 1, is `true`.
#![tactic(auto)]

ghost use Rattle.std.specs.Prelude.{◌≡◌, ℕ, ◌<◌, length, fold};
ghost use Rattle.frame.specs.Frame.{frame_of};
ghost use Rattle.deframe.specs.Unframe.{unframe_of};
ghost use Rattle.deframe.specs.Read.{is_mark, marks_of, shifted, idle_step, frame_step, step_of, read_of, answer_of, wrote_of};
ghost use Rattle.deframe.specs.Calls.{AfterTenOnes, OneCall};
ghost use Rattle.deframe.specs.declared.Deframer.TheVariants as place;

use refusal::Refusal;

// The reader's place.
#[derive(Clone, Copy)]
pub enum Deframer {
    // between frames
    Idle,
    // in a frame: how many of its ten bits are read, 1 to 9, the start bit among them, and its data bits so far, the last one highest
    Frame { bit_count: u8, acc: u8 },
    // after a bad stop bit
    Skipping,
}

// What a call of the reader comes to.
#[derive(Clone, Copy)]
pub struct Reading {
    pub place: Deframer,
    // how many bits were taken
    pub taken: usize,
    // how many bytes were put at the buffer's front
    pub given: usize,
}

// A frame's byte: `frame_byte` undone.
pub fn unframe(bits: [bool; 10]) -> Result<u8, Refusal>
    ensures value { result ≡ unframe_of bits }
    ensures reads_a_frame { (b : ℕ) → b < 256 → bits ≡ frame_of b → result ≡ Ok b }
    ensures reads_no_other { (b : ℕ) → result ≡ Ok b → frame_of b ≡ bits }
{
    match (bits[0], bits[9]) {
        (false, true) => Ok(data_byte(&bits[1..9])),
        _ => Err(Refusal::BadFrame),
    }
}

// The eight data bits, lowest first.
fn data_byte(bits: &[bool]) -> u8
    ensures { result ≡ fold shifted 0 bits.now }
{
    bits.iter().fold(0, |acc, mark| shift(acc, *mark))
}

// 02: a bit is a byte, 0 or anything else for one.
pub fn is_mark(bit: u8) -> bool
    ensures { result ≡ is_mark bit }
{
    bit != 0
}

// A data bit comes in from above; after eight the first one is the lowest.
fn shift(acc: u8, mark: bool) -> u8
    ensures { result ≡ shifted acc mark }
{
    acc / 2 + if mark { 128 } else { 0 }
}

impl Deframer {
    pub fn new() -> Self
        ensures { result ≡ place.Idle }
    {
        Deframer::Idle
    }

    // One bit, and the byte that it ends, if it ends one.
    pub fn push_bit(&mut self, mark: bool) -> Option<u8>
        ensures place { self.new ≡ (step_of self.old mark).place }
        ensures byte { result ≡ (step_of self.old mark).byte }
    {
        match *self {
            Deframer::Frame { bit_count, acc } => self.push_framed(bit_count, acc, mark),
            // up to the next one bit
            Deframer::Skipping if !mark => None,
            _ => self.push_idle(mark),
        }
    }

    // With none or more than nine bits read it is a place that no call gives, and idle.
    #[tactic(auto, unfolding(crate::specs::Read::frame_step))]
    fn push_framed(&mut self, bit_count: u8, acc: u8, mark: bool) -> Option<u8>
        ensures place { self.new ≡ (frame_step bit_count acc mark).place }
        ensures byte { result ≡ (frame_step bit_count acc mark).byte }
    {
        match bit_count {
            1..=8 => {
                *self = Deframer::Frame {
                    bit_count: bit_count + 1,
                    acc: shift(acc, mark),
                };
                None
            }
            9 if mark => {
                *self = Deframer::Idle;
                Some(acc)
            }
            // a zero for the stop bit drops the frame
            9 => {
                *self = Deframer::Skipping;
                None
            }
            _ => self.push_idle(mark),
        }
    }

    // A zero opens ten bits.
    fn push_idle(&mut self, mark: bool) -> Option<u8>
        ensures place { self.new ≡ (idle_step mark).place }
        ensures byte { result ≡ None }
    {
        *self = if mark {
            Deframer::Idle
        } else {
            Deframer::Frame {
                bit_count: 1,
                acc: 0,
            }
        };
        None
    }

    // A list of bits: all are taken, or those before the bit that would give a byte more than the buffer has room for. By value, as
    // 02 has it: "the same bytes and place" come of any split into calls.
    pub fn read(self, bits: &[u8], out: &mut [u8]) -> Reading
        ensures value { result ≡ answer_of (read_of (length out.old) self (marks_of bits.now)) }
        ensures out_after { out.new ≡ wrote_of (read_of (length out.old) self (marks_of bits.now)) out.old }
        ensures after_ten_ones { AfterTenOnes self }
        ensures one_call { OneCall self }
    {
        let mut place = self;
        let mut given: usize = 0;
        for (taken, bit) in bits.iter().enumerate() {
            let mut next = place;
            if let Some(byte) = next.push_bit(is_mark(*bit)) {
                if given >= out.len() {
                    return Reading {
                        place,
                        taken,
                        given,
                    };
                }
                out[given] = byte;
                given += 1;
            }
            place = next;
        }
        Reading {
            place,
            taken: bits.len(),
            given,
        }
    }
}
