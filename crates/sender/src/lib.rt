// The originate sender of a line that is up, with the bytes that wait for it. Bits go out on Bell 103's
// low channel, each for one symbol; a byte's frame begins at the first edge that is free for it, and
// outside frames the line is at mark.
#![tactic(auto)]

ghost use Rattle.std.specs.Prelude.{◌≡◌, length};
ghost use Rattle.sender.specs.Sender.{unfinished, frame_bit, fresh_sender, fresh_sending, tuned, chosen, ready, ticked, queued, emptied, raised};
ghost use Rattle.sender.specs.Wave.{after, samples, PlayedIs};

use fsk::{Keyed, Modulator, Tones};
use queue::Queue;

// Bell 103's low channel.
const BELL_103_LOW: Tones = Tones {
    mark: 1270.0,
    space: 1070.0,
};

// A start bit, eight of data, a stop bit.
pub const FRAME_BITS: u8 = 10;

// The byte is the one whose frame is being sent, `begun` how many of its ten bits are begun: 0 if
// there is none, a number and no Option, since 02 says how far it goes in a set that is sound, and a C
// program's memory may hold any. At an edge the next sample's bit is still to be chosen.
#[derive(Clone, Copy)]
pub struct Sender {
    pub modulator: Modulator,
    pub byte: u8,
    pub begun: u8,
    pub edge: bool,
}

// A sender, and the bytes that wait for it.
#[derive(Clone, Copy)]
pub struct Sending {
    pub sender: Sender,
    pub queue: Queue,
}

fn is_unfinished(begun: u8) -> bool
    ensures { result ≡ unfinished begun }
{
    begun > 0 && begun < FRAME_BITS
}

// Bit `index` of a byte's frame; past the last one the line is at mark.
fn frame_bit(byte: u8, index: u8) -> bool
    ensures { result ≡ frame_bit byte index }
{
    let bits = frame::frame_byte(byte);
    bits.get(usize::from(index)).copied().unwrap_or(true)
}

impl Sender {
    pub fn new(rate: u32) -> Sender
        ensures { result ≡ fresh_sender rate }
    {
        Sender {
            modulator: Modulator::new(BELL_103_LOW, rate, true),
            byte: 0,
            begun: 0,
            edge: true,
        }
    }

    // At another bit, which is the last begun of the byte's frame.
    fn sends(self, bit: bool, byte: u8, begun: u8) -> Sender
        ensures { result ≡ tuned self bit byte begun }
    {
        Sender {
            modulator: self.modulator.set_bit(BELL_103_LOW, bit),
            byte,
            begun,
            ..self
        }
    }

    // The samples of one bit, until its symbol ends or the part is full, and how many they are.
    fn play(&mut self, out: &mut [f32]) -> usize
        ensures { PlayedIs self.old self.new out.old out.new result }
    {
        let (last, written) = fsk::play(*self, out);
        *self = last;
        written
    }
}

impl Keyed for Sender {
    ghost modulator_of = { λ sender. sender.modulator };

    ghost next_of = { ticked };

    ghost ends = { λ sender. sender.edge };

    fn modulator(self) -> Modulator {
        self.modulator
    }

    // The oscillator steps, and the symbol clock.
    #[tactic(auto, unfolding(crate::specs::Sender::ticked))]
    fn moved(self) -> Sender {
        let mut modulator = self.modulator;
        let edge = modulator.tick();
        Sender {
            modulator,
            edge,
            ..self
        }
    }

    fn ended(self) -> bool {
        self.edge
    }
}

impl Sending {
    pub fn new(rate: u32) -> Sending
        ensures { result ≡ fresh_sending rate }
    {
        Sending {
            sender: Sender::new(rate),
            queue: Queue::new(),
        }
    }

    // A byte more waits; a full queue stays as it is.
    #[tactic(auto, unfolding(crate::specs::Sender::queued))]
    pub fn queue_byte(self, byte: u8) -> Sending
        ensures { result ≡ queued self byte }
    {
        let mut queue = self.queue;
        let _ = queue.push(byte);
        Sending { queue, ..self }
    }

    // No byte waits any more.
    pub fn emptied(self) -> Sending
        ensures { result ≡ emptied self }
    {
        Sending {
            queue: Queue::new(),
            ..self
        }
    }

    // As the line goes up at a rate: a fresh sender; what waits, waits on.
    pub fn raised(self, rate: u32) -> Sending
        ensures { result ≡ raised self rate }
    {
        Sending {
            sender: Sender::new(rate),
            ..self
        }
    }

    // At an edge: the next bit of an unfinished frame, else the first of a waiting byte's, else mark.
    #[tactic(auto, unfolding(crate::specs::Sender::chosen, crate::specs::Sender::choice_of))]
    fn chooses(self) -> Sending
        ensures { result ≡ chosen self }
    {
        let mut queue = self.queue;
        let Sender { byte, begun, .. } = self.sender;
        let sender = if is_unfinished(begun) {
            self.sender.sends(frame_bit(byte, begun), byte, begun + 1)
        } else if let Some(first) = queue.pop() {
            self.sender.sends(frame_bit(first, 0), first, 1)
        } else {
            self.sender.sends(true, byte, 0)
        };
        Sending { sender, queue }
    }

    #[tactic(auto, unfolding(crate::specs::Sender::ready))]
    fn readied(self) -> Sending
        ensures { result ≡ ready self }
    {
        if self.sender.edge {
            self.chooses()
        } else {
            self
        }
    }

    // Fills the buffer with the samples that follow, bit by bit: each bit says how many it has.
    pub fn fill(self, out: &mut [f32]) -> Sending
        ensures out_after { out.new ≡ samples (length out.old) self }
        ensures value { result ≡ after (length out.old) self }
    {
        let mut x = self;
        let mut at: usize = 0;
        while at < out.len() {
            x = x.readied();
            at += x.sender.play(&mut out[at..]);
        }
        x
    }
}
