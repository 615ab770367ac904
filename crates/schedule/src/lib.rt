// The clocks of an overture: a stage's seconds and its end in samples, and what digit, ring, sign
// or bit a time belongs to. There is no oscillator in here.
#![tactic(auto)]

ghost use Rattle.std.specs.Prelude.{◌≡◌, ◌≤◌};
ghost use Rattle.schedule.specs.Time.{time_at, samples_in};
ghost use Rattle.schedule.specs.Dialling.{digit_at, in_tone};
ghost use Rattle.schedule.specs.Ringback.{ring_at, ring_time, ring_tone};
ghost use Rattle.schedule.specs.Ansam.{sign_at};
ghost use Rattle.schedule.specs.Symbols.{symbol_step, symbol_ends, next_phase};
ghost use Rattle.schedule.specs.Length.{max_digits, dialling_length, dialling_samples};

pub use rate::Rate;

mod rate;

// The rates of a set.
pub const MIN_RATE: u32 = 8_000;

pub const MAX_RATE: u32 = 192_000;

// No call has more digits.
pub const MAX_DIGITS: u64 = 76;

const DTMF_TONE_S: f64 = 0.1;

const DIGIT_PERIOD_S: f64 = 0.2;

pub const RING_ON_S: f64 = 0.4;

pub const RING_OFF_S: f64 = 0.2;

const RING_CYCLE_S: f64 = 3.0;

pub const ANSAM_REVERSAL_S: f64 = 0.45;

const BAUD: f64 = 300.0;

// The bits of each payload, ten a byte.
pub const CI_BITS: u16 = 60;

pub const CMJM_BITS: u16 = 80;

pub const CJ_BITS: u16 = 60;

pub const TRAINING_BITS: u16 = 300;

// t = n / r
pub fn seconds(n: u32, rate: u32) -> f64
    ensures { result ≡ time_at rate n }
{
    f64::from(n) / f64::from(rate)
}

// R(duration): how many samples duration seconds are.
#[tactic(auto, unfolding(crate::specs::Time::samples_in))]
pub fn stage_samples_for(duration: f64, rate: u32) -> u64
    ensures { result ≡ samples_in duration rate }
{
    math::round(duration * f64::from(rate))
}

// Which digit, and whether its tone or the gap after it.
#[derive(Clone, Copy, PartialEq, Eq)]
pub struct DiallingPhase {
    pub digit: u64,
    pub tone: bool,
}

#[tactic(auto, unfolding(crate::specs::Dialling::digit_at, crate::specs::Dialling::in_tone))]
pub fn dialling_phase(t: f64) -> DiallingPhase
    ensures { (result.digit ≡ digit_at t) × (result.tone ≡ in_tone t) }
{
    let digit = math::floor(t / DIGIT_PERIOD_S);
    let phase_t = t - std::num::nearest_u64_to_f64(digit) * DIGIT_PERIOD_S;
    DiallingPhase {
        digit,
        tone: phase_t < DTMF_TONE_S,
    }
}

// Where the digits end: the place by whole numbers, or the sample after it. 0.2 is no f64, so the digit there decides.
fn dialling_end(digits: u64, rate: Rate) -> u64
    requires { digits ≤ max_digits }
    ensures { result ≡ dialling_length rate.hertz digits }
{
    if digits == 0 {
        return 1;
    }
    let place = digits * rate.hertz as u64 / 5;
    let phase = dialling_phase(seconds(place as u32, rate.hertz));
    if phase.digit < digits {
        place + 1
    } else {
        place
    }
}

// How many samples so many digits are; 0 for a rate or a number of digits that no call has. No Option: each caller has both
// within their limits, and would only take it apart.
pub fn dialling_samples(digits: u64, rate: u32) -> u64
    ensures { result ≡ dialling_samples rate digits }
{
    match Rate::new(rate) {
        Some(rate) if digits <= MAX_DIGITS => dialling_end(digits, rate),
        _ => 0,
    }
}

// Whether the cadence is in tone, time seconds into its ring.
#[tactic(auto, unfolding(crate::specs::Ringback::ring_tone))]
pub fn ringback_gate(time: f64) -> bool
    ensures { result ≡ ring_tone time }
{
    time < RING_ON_S || (time >= RING_ON_S + RING_OFF_S && time < 1.0)
}

// Which ring, and how long ago it began.
#[derive(Clone, Copy)]
pub struct RingProgress {
    pub ring: u8,
    pub time: f64,
}

#[tactic(auto, using(crate::proofs::Constants::three), unfolding(crate::specs::Ringback::ring_at, crate::specs::Ringback::ring_time))]
pub fn ring_progress(t: f64) -> RingProgress
    ensures { (result.ring ≡ ring_at t) × (result.time ≡ ring_time t) }
{
    if t >= RING_CYCLE_S {
        RingProgress {
            ring: 2,
            time: t - RING_CYCLE_S,
        }
    } else {
        RingProgress { ring: 1, time: t }
    }
}

// ANSam's phase reversals.
#[tactic(auto, unfolding(crate::specs::Ansam::sign_at))]
pub fn reversal_sign(t: f64) -> f64
    ensures { result ≡ sign_at t }
{
    if math::floor(t / ANSAM_REVERSAL_S) % 2 == 0 {
        1.0
    } else {
        -1.0
    }
}

// 300 / r
#[tactic(auto, using(crate::proofs::Constants::three_hundred), unfolding(crate::specs::Symbols::symbol_step))]
pub fn symbol_step(rate: u32) -> f64
    ensures { result ≡ symbol_step rate }
{
    BAUD / f64::from(rate)
}

// The symbol clock after one more sample: its phase, and whether a bit is done, which a bare pair would not name.
#[derive(Clone, Copy)]
pub struct Ticked {
    pub phase: f64,
    pub done: bool,
}

#[tactic(auto, unfolding(crate::specs::Symbols::symbol_ends, crate::specs::Symbols::next_phase))]
pub fn tick(phase: f64, step: f64) -> Ticked
    ensures { (result.phase ≡ next_phase step phase) × (result.done ≡ symbol_ends step phase) }
{
    let x = phase + step;
    if x >= 1.0 {
        Ticked {
            phase: x - 1.0,
            done: true,
        }
    } else {
        Ticked {
            phase: x,
            done: false,
        }
    }
}
