// Bits as tones: a modulator sends one bit after another on any two tones, and a channel a payload's
// bits on V.21's. A fresh one is already at its first bit's tone, so that a payload's bits take just
// their symbol periods. The bits themselves are no part of a channel: it holds how many are done, and
// its caller names the payload.
#![tactic(auto)]

ghost use Rattle.std.specs.Prelude.{◌≡◌, Bool, drop};
ghost use Rattle.fsk.specs.declared.Modulator.{Modulator};
ghost use Rattle.frame.specs.Frame.{framed};
ghost use Rattle.fsk.specs.Modulator.{tone_of, fresh_modulator, keyed, modulator_sample, bit_ends, next_modulator};
ghost use Rattle.fsk.specs.Channel.{fresh_channel, next_keyed, next_channel};
ghost use Rattle.fsk.specs.Played.{keying, SoundedIs};

use nco::Nco;

// V.21's low channel.
const V21_LOW: Tones = Tones {
    mark: 980.0,
    space: 1180.0,
};

const FSK_AMPLITUDE: f64 = 0.7;

// The two tones of bits, in hertz: a 1 is at mark, a 0 at space.
#[derive(Clone, Copy)]
pub struct Tones {
    pub mark: f64,
    pub space: f64,
}

// An oscillator, and the clock of its bits: the symbol phase, and what each sample adds to it.
#[derive(Clone, Copy)]
pub struct Modulator {
    pub nco: Nco,
    pub phase: f64,
    pub step: f64,
}

#[derive(Clone, Copy)]
pub struct FskChannel {
    pub modulator: Modulator,
    pub done: u16,
}

impl Tones {
    fn tone(self, bit: bool) -> f64
        ensures { result ≡ tone_of self.mark self.space bit }
    {
        if bit { self.mark } else { self.space }
    }
}

impl Modulator {
    pub fn new(tones: Tones, rate: u32, first: bool) -> Modulator
        ensures { result ≡ fresh_modulator tones.mark tones.space rate first }
    {
        Modulator {
            nco: Nco::new(tones.tone(first), rate as f64),
            phase: 0.0,
            step: schedule::symbol_step(rate),
        }
    }

    // A bit sets the oscillator's step.
    pub fn set_bit(self, tones: Tones, bit: bool) -> Modulator
        ensures { result ≡ keyed self tones.mark tones.space bit }
    {
        Modulator {
            nco: self.nco.set_freq(tones.tone(bit)),
            ..self
        }
    }

    pub fn sample(self) -> f64
        ensures { result ≡ modulator_sample self }
    {
        math::sin(self.nco.phase) * FSK_AMPLITUDE
    }

    // One sample on, still at the same bit; whether a bit is done with that sample.
    pub fn tick(&mut self) -> bool
        ensures { (result ≡ bit_ends self.old) × (self.new ≡ next_modulator self.old) }
    {
        let t = schedule::tick(self.phase, self.step);
        self.nco = self.nco.moved();
        self.phase = t.phase;
        t.done
    }
}

// Bit `index` of the payload sets the step; where there is no such bit the step stays.
fn set_next(m: Modulator, payload: &[u8], index: u16) -> Modulator
    ensures { result ≡ next_keyed (drop index (framed payload.now)) m }
{
    let at = index as usize;
    if frame::has_bit(payload, at) {
        return m.set_bit(V21_LOW, frame::payload_bit(payload, at));
    }
    m
}

impl FskChannel {
    #[tactic(auto, using(crate::proofs::Channel::mark_is, crate::proofs::Channel::space_is), unfolding(crate::specs::Channel::fresh_channel))]
    pub fn new(payload: &[u8], rate: u32) -> FskChannel
        ensures { result ≡ fresh_channel payload.now rate }
    {
        let first = frame::payload_bit(payload, 0);
        FskChannel {
            modulator: Modulator::new(V21_LOW, rate, first),
            done: 0,
        }
    }

    // The channel after one sample.
    #[tactic(auto, using(crate::proofs::Channel::one_more_done_is), unfolding(crate::specs::Channel::next_channel))]
    pub fn moved(self, payload: &[u8]) -> FskChannel
        ensures { result ≡ next_channel self payload.now }
    {
        let mut modulator = self.modulator;
        let mut done = self.done;
        if modulator.tick() {
            done = done.saturating_add(1);
            modulator = set_next(modulator, payload, done);
        }
        FskChannel { modulator, done }
    }
}

// The samples of two modulators, or of one and what it has become: their sines are worked out together.
pub fn sample_twice(m: Modulator, n: Modulator) -> (f64, f64)
    ensures { (result.0 ≡ modulator_sample m) × (result.1 ≡ modulator_sample n) }
{
    let (a, b) = math::sin_both(m.nco.phase, n.nco.phase);
    (a * FSK_AMPLITUDE, b * FSK_AMPLITUDE)
}

// What sounds on a modulator, sample by sample, until it ends with one of them.
pub trait Keyed: Copy {
    ghost modulator_of: { Self → Modulator };

    ghost next_of: { Self → Self };

    ghost ends: { Self → Bool };

    // That of the next sample.
    fn modulator(self) -> Modulator
        ensures { result ≡ modulator_of self };

    // After one sample.
    fn moved(self) -> Self
        ensures { result ≡ next_of self };

    // Whether the sample before was its last.
    fn ended(self) -> bool
        ensures { result ≡ ends self };
}

// The samples of one, to its last or until the part is full: what is in hand after them, and how many
// they are. Two a turn, so that their sines share the lanes of one division. It counts by hand: it may
// end between the two, and over pairs of samples the count of those written would stand beside the iterator.
pub fn play<K: Keyed>(keyed: K, out: &mut [f32]) -> (K, usize)
    ensures { SoundedIs (keying K.modulator_of K.next_of) K.ends keyed out.old out.new result.0 result.1 }
{
    let mut now = keyed;
    let mut written: usize = 0;
    while out.len() - written > 1 {
        let next = now.moved();
        let (a, b) = sample_twice(now.modulator(), next.modulator());
        out[written] = math::narrow(a);
        written += 1;
        if next.ended() {
            return (next, written);
        }
        let after = next.moved();
        out[written] = math::narrow(b);
        written += 1;
        if after.ended() {
            return (after, written);
        }
        now = after;
    }
    if written < out.len() {
        out[written] = math::narrow(now.modulator().sample());
        return (now.moved(), written + 1);
    }
    (now, written)
}
