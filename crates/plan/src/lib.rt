// The length of a call before the call: the samples of its stages and T, for digit bytes and a rate.
// Clocks are counted; no sample is made, so there is no oscillator in here.
#![tactic(auto)]

ghost use Rattle.std.specs.Prelude.{◌≡◌, ℕ, ◌≤◌, ◌<◌, length};
ghost use Rattle.keys.specs.Keys.{digits_of};
ghost use Rattle.schedule.specs.Time.{min_rate, max_rate};
ghost use Rattle.schedule.specs.Symbols.{symbol_step, done_after};
ghost use Rattle.schedule.specs.Length.{max_digits, bits_length};
ghost use Rattle.passage.specs.Overture.{HasLength};
ghost use Rattle.plan.specs.Clock.{clock_after};
ghost use Rattle.plan.specs.Call.{call_digits};
ghost use Rattle.plan.specs.Plan.{plan_cause, plan_at, plan_of, counts_of, stage_samples, total_samples, BoundsOf};

pub use call::Call;
use refusal::Refusal;
use schedule::Rate;

mod call;

// The samples of stages 1 to 9, in their order.
#[derive(Clone, Copy)]
pub struct Plan {
    pub samples: [u32; 9],
}

// The symbol clock, n samples into a stage of bits.
#[derive(Clone, Copy)]
struct Clock {
    n: u32,
    phase: f64,
    done: u16,
}

// The clock when so many bits are done, from where fewer were. The bits end it, and not a count of samples, so it is no `for`.
fn run_to(from: Clock, bits: u16, rate: Rate) -> Clock
    requires { (bits ≤ 300) × (from ≡ clock_after rate.hertz from.n) × (from.done < bits) × ((j : ℕ) → j < from.n → done_after (symbol_step rate.hertz) j < bits) }
    ensures { (result ≡ clock_after rate.hertz (bits_length rate.hertz bits)) × (result.done ≡ bits) }
{
    let step = schedule::symbol_step(rate.hertz);
    let mut clock = from;
    while clock.done < bits {
        let next = schedule::tick(clock.phase, step);
        clock = Clock {
            n: clock.n + 1,
            phase: next.phase,
            done: clock.done + u16::from(next.done),
        };
    }
    clock
}

// One pass of the symbol clock tells the four stages of bits.
fn lengths(call: &Call) -> Plan
    ensures { result ≡ plan_at call.now.rate.hertz (length (call_digits call.now)) }
{
    let rate = call.rate.hertz;
    let [click, tone, dialling, ringback] = call.before_bits();
    let ansam = schedule::stage_samples_for(stage::ANSAM_S, rate) as u32;
    let silence = schedule::stage_samples_for(stage::CJ_SILENCE_S, rate) as u32;
    let start = Clock {
        n: 0,
        phase: 0.0,
        done: 0,
    };
    let ci = run_to(start, schedule::CI_BITS, call.rate);
    let cm_jm = run_to(ci, schedule::CMJM_BITS, call.rate);
    let training = run_to(cm_jm, schedule::TRAINING_BITS, call.rate);
    let cj = ci.n + silence;
    Plan {
        samples: [
            click, tone, dialling, ringback, ci.n, ansam, cm_jm.n, cj, training.n,
        ],
    }
}

// The plan of a call, with the digits that a dial line would have of the bytes.
pub fn planned(digits: &[u8], rate: u32) -> Result<Plan, Refusal>
    ensures { result ≡ plan_of digits.now rate }
{
    let call = Call::new(digits, rate)?;
    Ok(lengths(&call))
}

// What the calls below decline, in the order of 02.
pub fn plan_refusal(digits: &[u8], rate: u32) -> Result<(), Refusal>
    ensures { result ≡ plan_cause (length digits.now) rate }
{
    let _ = Call::rate_of(digits.len(), rate)?;
    Ok(())
}

// The samples of stages 1 to 9; zeros where there is no plan. By a match: the closure of a `map_or` would want a clause of its own.
fn samples_of(digits: &[u8], rate: u32) -> [u32; 9]
    ensures { result ≡ counts_of (plan_of digits.now rate) }
{
    match planned(digits, rate) {
        Ok(plan) => plan.samples,
        Err(_) => [0; 9],
    }
}

// The samples of a stage, by its number; 0 outside 1 to 9 (02, E4).
pub fn stage_samples(digits: &[u8], rate: u32, stage: u32) -> u32
    ensures { result ≡ stage_samples digits.now rate stage }
{
    if (1..=9).contains(&stage) {
        return samples_of(digits, rate)[stage as usize - 1];
    }
    0
}

// T. At a rate of 01 and with no more bytes than a dial line has, it is the overture's length, with demand 3's bounds. It takes any
// number, and may not ask for a Rate.
pub fn total_samples(digits: &[u8], rate: u32) -> u32
    ensures value { result ≡ total_samples digits.now rate }
    ensures has_length { min_rate ≤ rate → rate ≤ max_rate → length digits.now ≤ max_digits → HasLength (digits_of digits.now) rate result }
    ensures bounds_of { min_rate ≤ rate → rate ≤ max_rate → length digits.now ≤ max_digits → BoundsOf rate (length (digits_of digits.now)) result }
{
    let counts = samples_of(digits, rate);
    counts.iter().sum()
}
