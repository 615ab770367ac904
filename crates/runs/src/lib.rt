// Runs: samples in a row over which a clock of the schedule tells the same, so that a writer asks
// it once for all of them.
#![tactic(auto)]

ghost use Rattle.std.specs.Prelude.{◌≡◌, true, ℕ, suc, ◌+◌, ◌*◌, ◌≤◌, ◌<◌, MatchOption};
ghost use Rattle.runs.specs.Runs.{counted, Before, OneSign, OneGate, OneKey, Limits, EndsAgree, same_reversal, same_part, same_gate};

use schedule::Rate;

// Runs are looked for at 01's rates, and up to a count far above any stage's.
const MAX_COUNT: u32 = 0x4000_0000;

// The count after c samples more; the largest stays. std's adds a u32, which a usize may not fit, and says nothing of one sample after another.
#[tactic(auto, using(crate::proofs::Counted::added_is))]
pub fn saturating_add(n: u32, c: usize) -> u32
    ensures { result ≡ counted c n }
{
    n.saturating_add(c.min(u32::MAX as usize) as u32)
}

// How many samples are left of a stage that ends at a count, and of a buffer: one at least, if the
// buffer has room for it.
pub fn samples_left(n: u32, end: u64, most: usize) -> usize
    ensures { Before n end most result }
{
    let left = end.saturating_sub(n as u64).max(1);
    most.min(left as usize)
}

// The rate, where runs are looked for: elsewhere each sample is a run.
fn known_rate(n: u32, rate: u32, most: usize) -> Option<Rate>
    ensures { MatchOption result (¬ Limits rate n most) (λ known. (known.hertz ≡ rate) × Limits rate n most) }
{
    let rate = Rate::new(rate)?;
    ((n <= MAX_COUNT) & (most <= MAX_COUNT as usize)).then_some(rate)
}

fn same_reversal(s: f64, t: f64) -> bool
    ensures { result ≡ same_reversal s t }
{
    math::floor(s / schedule::ANSAM_REVERSAL_S) == math::floor(t / schedule::ANSAM_REVERSAL_S)
}

// Its tests are joined by `&`, as all here, so that none is a branch.
fn same_part(u: f64, v: f64) -> bool
    ensures { result ≡ same_part u v }
{
    ((u < schedule::RING_ON_S) == (v < schedule::RING_ON_S))
        & (((u >= schedule::RING_ON_S + schedule::RING_OFF_S)
            == (v >= schedule::RING_ON_S + schedule::RING_OFF_S))
            & ((u < 1.0) == (v < 1.0)))
}

#[tactic(auto, unfolding(crate::specs::Runs::same_gate))]
fn same_gate(s: f64, t: f64) -> bool
    ensures { result ≡ same_gate s t }
{
    let a = schedule::ring_progress(s);
    let b = schedule::ring_progress(t);
    (a.ring == b.ring) & same_part(a.time, b.time)
}

// As many samples as there is room for, halved until what a clock tells of the first and of the last is the same.
fn run<F: Fn(f64, f64) -> bool>(same: F, n: u32, rate: u32, most: usize) -> usize
    requires { F.IsAlwaysCallable same }
    ensures { EndsAgree (λ s t. F.post same s t true) rate n most result }
{
    if let Some(rate) = known_rate(n, rate, most) {
        let first = schedule::seconds(n, rate.hertz);
        let mut c = most;
        while c > 1 {
            let last = n + (c - 1) as u32;
            if same(first, schedule::seconds(last, rate.hertz)) {
                return c;
            }
            c /= 2;
        }
    }
    most.min(1)
}

// A run of one sign. ANSam's clock does not go back, so what lies between two samples that it tells the same of agrees with them.
pub fn reversal_run(n: u32, rate: u32, most: usize) -> usize
    ensures { OneSign rate n most result }
{
    run(same_reversal, n, rate, most)
}

// A run of one ring in tone or in a gap. Nor does this clock go back.
pub fn ring_run(n: u32, rate: u32, most: usize) -> usize
    ensures { OneGate rate n most result }
{
    run(same_gate, n, rate, most)
}

// How many samples after the count n lie between two edges for sure, none of them on one. Edges are in tenths of a sample, so that a digit's
// beginning, middle and end are whole numbers.
fn run_between(from: u64, to: u64, n: u64) -> u64
    requires { n ≤ 0x4000_0000 }
    ensures { (j : ℕ) → j < result → (from < 10 * (n + suc j)) × (10 * (n + suc j) < to) }
{
    let next = 10 * (n + 1);
    if from < next && next < to {
        return (to - 1) / 10 - n;
    }
    0
}

// A run of one digit, in tone or in its gap. On an edge none is known.
pub fn dialling_run(digit: u64, tone: bool, n: u32, rate: u32, most: usize) -> usize
    ensures { OneKey rate n digit tone most result }
{
    if digit > 75 {
        return 0;
    }
    if let Some(rate) = known_rate(n, rate, most) {
        let r = rate.hertz as u64;
        let start = 2 * (digit * r);
        let middle = start + r;
        if tone {
            return most.min(run_between(start, middle, n as u64) as usize);
        }
        let end = middle + r;
        return most.min(run_between(middle, end, n as u64) as usize);
    }
    0
}
