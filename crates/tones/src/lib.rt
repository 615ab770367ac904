// Samples, one at a time, of whatever stage: the click's noise, two oscillators mixed or at rest,
// ANSam, and the digits that are dialled.
#![tactic(auto)]

ghost use Rattle.std.specs.Prelude.{◌≡◌, true};
ghost use Rattle.tones.specs.Samples.{shifted, click_sample, mixed, ansam_sample};
ghost use Rattle.tones.specs.Mixed.{gated_of, answer_of};
ghost use Rattle.tones.specs.Dial.{tones_for, digit_tones, dialled_key, pair_stays, taken_over, dial_step_of};

use keys::{Key, Tones};
use nco::Nco;
use schedule::DiallingPhase;

const ANSAM_AM_DEPTH: f64 = 0.3;

const ANSAM_SCALE: f64 = 0.7;

const TWO_TONE_AMPLITUDE: f64 = 0.45;

const OFF_HOOK_TAU_S: f64 = 0.008;

const OFF_HOOK_AMPLITUDE: f64 = 0.4;

// Two oscillators after a sample of both.
#[derive(Drop)]
pub struct Mixed {
    pub sample: f64,
    pub a: Nco,
    pub b: Nco,
}

// A digit's two frequencies, and its key. No Option of both: where there is no key the oscillators have 1 Hz.
#[derive(Drop)]
pub struct KeyTones {
    pub low: f64,
    pub high: f64,
    pub key: Option<Key>,
}

// What is dialled: a digit's position, its tone or the gap after it, and its oscillators.
#[derive(Drop)]
pub struct Dial {
    pub digit: u64,
    pub tone: bool,
    pub a: Nco,
    pub b: Nco,
}

// A sample, what is dialled after it, and whether that was the last: the first two are there in both cases, so no Option.
#[derive(Drop)]
pub struct Dialled {
    pub sample: f64,
    pub dial: Dial,
    pub finished: bool,
}

// The click's noise: 64 bits of xorshift.
#[tactic(auto, unfolding(crate::specs::Samples::shifted))]
pub fn shift(x: u64) -> u64
    ensures { result ≡ shifted x }
{
    let a = x ^ (x << 13);
    let b = a ^ (a >> 7);
    b ^ (b << 17)
}

// The relay's click, t seconds into it, of the noise's top 24 bits.
pub fn click_sample(rng: u64, t: f64) -> f64
    ensures { result ≡ click_sample rng t }
{
    let n = std::num::nearest_u64_to_f64(rng >> 40) / 8388608.0 - 1.0;
    n * OFF_HOOK_AMPLITUDE * math::exp(t / OFF_HOOK_TAU_S)
}

#[tactic(auto, unfolding(crate::specs::Samples::mixed))]
pub fn mix(a: f64, b: f64) -> f64
    ensures { result ≡ mixed a b }
{
    a * TWO_TONE_AMPLITUDE + b * TWO_TONE_AMPLITUDE
}

#[tactic(auto, unfolding(crate::specs::Samples::ansam_sample))]
pub fn ansam_sample(carrier: f64, env: f64, sign: f64) -> f64
    ensures { result ≡ ansam_sample carrier env sign }
{
    let carrier_sample = carrier * sign;
    let envelope = 1.0 + ANSAM_AM_DEPTH * env;
    carrier_sample * envelope * ANSAM_SCALE
}

// Two oscillators mixed, which take a case of StageState apart. `Nco::next` would have a loop read them in other pieces than they were stored, which a short buffer notices.
#[tactic(auto, unfolding(crate::specs::Mixed::gated_of))]
pub fn two_tones(a: Nco, b: Nco) -> Mixed
    ensures { result ≡ gated_of true a b }
{
    Mixed {
        sample: mix(math::sin(a.phase), math::sin(b.phase)),
        a: a.moved(),
        b: b.moved(),
    }
}

// The same in tone; in a gap they rest.
#[tactic(auto, unfolding(crate::specs::Mixed::gated_of))]
pub fn gated(on: bool, a: Nco, b: Nco) -> Mixed
    ensures { result ≡ gated_of on a b }
{
    if on {
        two_tones(a, b)
    } else {
        Mixed { sample: 0.0, a, b }
    }
}

impl From<Option<Tones>> for KeyTones {
    ghost from_gives = { λ tones key_tones. key_tones ≡ tones_for tones };

    fn from(tones: Option<Tones>) -> KeyTones {
        match tones {
            Some(Tones { low, high, key }) => KeyTones {
                low,
                high,
                key: Some(key),
            },
            None => KeyTones {
                low: 1.0,
                high: 1.0,
                key: None,
            },
        }
    }
}

// The frequencies and the key of the digit at a position; 1 Hz and no key where there is none.
#[tactic(auto, using(crate::proofs::Lit::past), unfolding(crate::specs::Dial::digit_tones))]
pub fn digit_tones(digits: &[u8], i: u64) -> KeyTones
    ensures { result ≡ digit_tones digits.now i }
{
    let digit = digits.get(i as usize);
    KeyTones::from(digit.and_then(|b| keys::dtmf_freqs(*b)))
}

// The key of a sample: the digit's in its tone, none in the gap after it.
#[tactic(auto, unfolding(crate::specs::Dial::dialled_key))]
pub fn dialled_key(digits: &[u8], i: u64, tone: bool) -> Option<Key>
    ensures { result ≡ dialled_key digits.now i tone }
{
    if tone {
        digit_tones(digits, i).key
    } else {
        None
    }
}

// Whether the pair of digit and tone stays: at the end, or where it did not change.
#[tactic(auto, unfolding(crate::specs::Dial::pair_stays))]
fn pair_stays(d: u64, phase: DiallingPhase, last: DiallingPhase) -> bool
    ensures { result ≡ pair_stays d phase.digit phase.tone last.digit last.tone }
{
    phase.digit >= d || phase == last
}

// A changed pair is taken over, with fresh oscillators if in tone.
#[tactic(auto, unfolding(crate::specs::Dial::taken_over))]
fn take_over(stays: bool, phase: DiallingPhase, dial: Dial, digits: &[u8], rate: u32) -> Dial
    ensures { result ≡ taken_over stays phase.digit phase.tone dial digits.now rate }
{
    let DiallingPhase { digit, tone } = phase;
    if stays {
        dial
    } else if tone {
        let tones = digit_tones(digits, digit);
        let rate = f64::from(rate);
        Dial {
            digit,
            tone,
            a: Nco::new(tones.low, rate),
            b: Nco::new(tones.high, rate),
        }
    } else {
        Dial {
            digit,
            tone,
            ..dial
        }
    }
}

// One sample of what is dialled; n counts it.
#[tactic(auto, unfolding(crate::specs::Dial::dial_step_of))]
pub fn dial_step(dial: Dial, n: u32, digits: &[u8], rate: u32) -> Dialled
    ensures { result ≡ dial_step_of dial n digits.now rate }
{
    let d = digits.len() as u64;
    if dial.digit >= d {
        return Dialled {
            sample: 0.0,
            dial,
            finished: true,
        };
    }
    let Dial { digit, tone, a, b } = dial;
    let Mixed { sample, a, b } = gated(tone, a, b);
    let phase = schedule::dialling_phase(schedule::seconds(n, rate));
    let stays = pair_stays(d, phase, DiallingPhase { digit, tone });
    let played = Dial { digit, tone, a, b };
    Dialled {
        sample,
        dial: take_over(stays, phase, played, digits, rate),
        finished: phase.digit >= d,
    }
}

// One sample of ANSam, at its sign, of the two oscillators that its case of StageState holds.
#[tactic(auto, unfolding(crate::specs::Mixed::answer_of))]
pub fn answer_tone(carrier: Nco, env: Nco, sign: f64) -> Mixed
    ensures { result ≡ answer_of carrier env sign }
{
    let (x, y) = math::sin_both(carrier.phase, env.phase);
    Mixed {
        sample: ansam_sample(x, y, sign),
        a: carrier.moved(),
        b: env.moved(),
    }
}
