// 02, E9, "How true the tone is": what it says of S, of the overture's samples and of a set's fill, at the functions in use.
#![tactic(auto)]

ghost use Rattle.std.specs.Prelude.{◌≡◌, ℕ, T, length, IsOk};
ghost use Rattle.std.specs.Float.Ieee.{le};
ghost use Rattle.math.specs.Float.{zero, quarter_turn, plus, times};
ghost use Rattle.math.specs.Sine.{sine};
ghost use Rattle.math.specs.Narrow.{narrowed};
ghost use Rattle.tones.specs.Samples.{tone_gain};
ghost use Rattle.overture.specs.Iteration.{fresh, after, samples, shown_after};
ghost use Rattle.session.specs.declared.SessionState.TheVariants.{Dialling, Connected};
ghost use Rattle.set.specs.Set.{fill, buffer};
ghost use Rattle.accuracy.specs.Taylor.{NearSine};
ghost use Rattle.accuracy.specs.Level.{InLevel, AllInLevel};

use refusal::Refusal;
use set::{Filled, Set};
use stage::Stage;

// 01's gain of each of two tones.
const TWO_TONE_AMPLITUDE: f64 = 0.45;

// S. From 0 to Q it lies within 2^-36 of the Taylor sum.
pub fn near_sin(y: f64) -> f64
    ensures value { result ≡ sine y }
    ensures near_sine { T (le zero y) → T (le y quarter_turn) → NearSine result y }
{
    math::sin(y)
}

// Two tones at any phases, in or out of the turn: between -0.92 and 0.92 with this gain.
pub fn two_sines(p: f64, q: f64) -> f32
    ensures value { result ≡ narrowed (plus (times (sine p) tone_gain) (times (sine q) tone_gain)) }
    ensures in_level { InLevel result }
{
    math::narrow(math::sin(p) * TWO_TONE_AMPLITUDE + math::sin(q) * TWO_TONE_AMPLITUDE)
}

// The overture's samples from its first on, as many as the buffer holds. Each lies between -0.92 and 0.92, and so do those after them.
pub fn read_fresh(digits: &[u8], rate: u32, out: &mut [f32]) -> overture::Filled
    ensures out_after { out.new ≡ samples (length out.old) (fresh digits.now rate) digits.now rate }
    ensures state_value { result.state ≡ after (length out.old) (fresh digits.now rate) digits.now rate }
    ensures shown_value { result.shown ≡ shown_after (length out.old) (fresh digits.now rate) digits.now rate }
    ensures all_in_level { AllInLevel out.new }
    ensures by_index { (k : ℕ) → AllInLevel (samples k (fresh digits.now rate) digits.now rate) }
{
    let state = stage::enter_state(Stage::OffHook, digits, rate);
    overture::read(state, digits, rate, out)
}

// A set's fill. In Dialling and in Connected, unless it is declined, each sample that it leaves lies between -0.92 and 0.92, whatever else
// the set holds.
pub fn process_out(set: Set, out: &mut [f32]) -> Result<Filled, Refusal>
    ensures value { result ≡ fill set (length out.old) }
    ensures out_after { out.new ≡ buffer set out.old }
    ensures dialling_in_level { set.session.state ≡ Dialling → IsOk result → AllInLevel out.new }
    ensures connected_in_level { set.session.state ≡ Connected → IsOk result → AllInLevel out.new }
{
    set.process_out(out)
}
