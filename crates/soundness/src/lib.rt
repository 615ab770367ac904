// Whether a stage's state is sound, as 01 lists it. Every call on a set asks, so no length is
// looked for by counting: whether Dialling goes on is told by the digit at n alone. Tests are joined
// by `&` and `|`, which ask all of them, so that none is a branch.
#![tactic(auto)]

ghost use Rattle.std.specs.Prelude.{◌≡◌, ◌≤◌, ltb};
ghost use Rattle.schedule.specs.Time.{samples_in};
ghost use Rattle.schedule.specs.Symbols.{in_symbol};
ghost use Rattle.schedule.specs.Length.{dialling_length};
ghost use Rattle.soundness.specs.Sound.{rate_ok, digits_ok, nco_ok, modulator_ok, digit_ok, ring_ok, tones_ok, dialling_ok, ringback_ok, bits_ok, cj_ok, state_ok, sound_state};

use fsk::{FskChannel, Modulator};
use nco::Nco;
use schedule::{MAX_RATE, MIN_RATE, Rate};
use stage::StageState;

pub mod sending;

// Rate in limits.
#[tactic(auto, unfolding(crate::specs::Sound::rate_ok))]
pub fn rate_ok(rate: u32) -> bool
    ensures { result ≡ rate_ok rate }
{
    (rate >= MIN_RATE) & (rate <= MAX_RATE)
}

// At most 76, all keys. Of more than that none is looked at.
#[tactic(auto, unfolding(crate::specs::Sound::digits_ok))]
pub fn digits_ok(digits: &[u8]) -> bool
    ensures { result ≡ digits_ok digits.now }
{
    if digits.len() as u64 <= schedule::MAX_DIGITS {
        return keys::all_keys(digits);
    }
    false
}

// A symbol phase is in [0, 1).
fn in_symbol(phase: f64) -> bool
    ensures { result ≡ in_symbol phase }
{
    (phase >= 0.0) & (phase < 1.0)
}

// An oscillator's rate is r.
#[tactic(auto, unfolding(crate::specs::Sound::nco_ok))]
fn nco_ok(o: Nco, rate: u32) -> bool
    ensures { result ≡ nco_ok o rate }
{
    nco::phase_in_range(o.phase) & (nco::phase_in_range(o.step) & (o.rate == rate as f64))
}

// A symbol step is 300 / r.
#[tactic(auto, unfolding(crate::specs::Sound::modulator_ok))]
pub fn modulator_ok(m: Modulator, rate: u32) -> bool
    ensures { result ≡ modulator_ok m rate }
{
    let nco = m.nco;
    nco_ok(nco, rate) & (in_symbol(m.phase) & (m.step == schedule::symbol_step(rate)))
}

// A digit position is below d, or 0 with d = 0.
fn digit_ok(digit: u64, d: u64) -> bool
    ensures { result ≡ digit_ok digit d }
{
    (digit < d) | ((digit == 0) & (d == 0))
}

fn ring_ok(ring: u8) -> bool
    ensures { result ≡ ring_ok ring }
{
    (ring == 1) | (ring == 2)
}

// n is below R(duration). What follows takes a case of StageState apart, oscillator by oscillator.
fn goes_on(n: u32, duration: f64, rate: u32) -> bool
    ensures { result ≡ ltb n (samples_in duration rate) }
{
    (n as u64) < schedule::stage_samples_for(duration, rate)
}

#[tactic(auto, unfolding(crate::specs::Sound::tones_ok))]
fn tones_ok(a: Nco, b: Nco, n: u32, duration: f64, rate: u32) -> bool
    ensures { result ≡ tones_ok a b n duration rate }
{
    nco_ok(a, rate) & (nco_ok(b, rate) & goes_on(n, duration, rate))
}

fn ringback_ok(a: Nco, b: Nco, n: u32, ring: u8, rate: u32) -> bool
    ensures { result ≡ ringback_ok a b n ring rate }
{
    ring_ok(ring) & tones_ok(a, b, n, stage::RING_STAGE_S, rate)
}

#[tactic(auto, unfolding(crate::specs::Sound::bits_ok))]
fn bits_ok(fsk: FskChannel, bits: u16, rate: u32) -> bool
    ensures { result ≡ bits_ok fsk bits rate }
{
    let m = fsk.modulator;
    modulator_ok(m, rate) & (fsk.done < bits)
}

// All of Cj's bits may be done: its zeros come after them.
#[tactic(auto, unfolding(crate::specs::Sound::cj_ok))]
fn cj_ok(fsk: FskChannel, silence: u32, rate: u32) -> bool
    ensures { result ≡ cj_ok fsk silence rate }
{
    let m = fsk.modulator;
    modulator_ok(m, rate)
        & ((fsk.done <= schedule::CJ_BITS) & goes_on(silence, stage::CJ_SILENCE_S, rate))
}

// A call that may be: its rate, and how many digits it has, 76 at most.
#[derive(Clone, Copy)]
struct Call {
    digits: u64,
    rate: Rate,
    ghost few: { digits ≤ 76 },
}

impl Call {
    // n is below the samples of the digits: at n = 0 always, and from then on while i < d.
    fn dialling_goes_on(self, n: u32) -> bool
        ensures { result ≡ ltb n (dialling_length self.rate.hertz self.digits) }
    {
        let phase = schedule::dialling_phase(schedule::seconds(n, self.rate.hertz));
        (n == 0) | (phase.digit < self.digits)
    }

    #[tactic(auto, unfolding(crate::specs::Sound::dialling_ok))]
    fn dialling_ok(self, digit: u64, a: Nco, b: Nco, n: u32) -> bool
        ensures { result ≡ dialling_ok digit a b n self.digits self.rate.hertz }
    {
        let rate = self.rate.hertz;
        digit_ok(digit, self.digits)
            & (nco_ok(a, rate) & (nco_ok(b, rate) & self.dialling_goes_on(n)))
    }

    // A state by its kind.
    #[tactic(auto, unfolding(crate::specs::Sound::state_ok))]
    fn state_ok(self, state: StageState) -> bool
        ensures { result ≡ state_ok state self.digits self.rate.hertz }
    {
        let rate = self.rate.hertz;
        match state {
            StageState::OffHook { rng: _, n } => goes_on(n, stage::OFF_HOOK_S, rate),
            StageState::DialTone { a, b, n } => tones_ok(a, b, n, stage::DIAL_TONE_S, rate),
            StageState::Dialling {
                digit_i,
                in_tone: _,
                a,
                b,
                n,
            } => self.dialling_ok(digit_i, a, b, n),
            StageState::Ringback { a, b, n, ring } => ringback_ok(a, b, n, ring, rate),
            StageState::Ci(fsk) => bits_ok(fsk, schedule::CI_BITS, rate),
            StageState::Ansam { carrier, env, n } => tones_ok(
                carrier,
                env,
                n,
                stage::ANSAM_S,
                rate,
            ),
            StageState::CmJm(fsk) => bits_ok(fsk, schedule::CMJM_BITS, rate),
            StageState::Cj { fsk, silence_n } => cj_ok(fsk, silence_n, rate),
            StageState::Training(fsk) => bits_ok(fsk, schedule::TRAINING_BITS, rate),
            StageState::Connected => true,
        }
    }
}

// The digits and the rate are asked too, since a stage's own end follows from them.
#[tactic(auto, unfolding(crate::specs::Sound::sound_state))]
pub fn sound_state(state: StageState, digits: &[u8], rate: u32) -> bool
    ensures { result ≡ sound_state state digits.now rate }
{
    match Rate::new(rate) {
        Some(rate) if digits_ok(digits) => {
            let call = Call {
                digits: digits.len() as u64,
                rate,
            };
            call.state_ok(state)
        }
        _ => false,
    }
}
