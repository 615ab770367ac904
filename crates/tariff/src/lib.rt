// What a call would have cost, for its connected time. No set is needed.
#![tactic(auto)]

ghost use Rattle.std.specs.Prelude.{◌≡◌, ℕ, ◌≤◌, ◌<◌, MatchResult};
ghost use Rattle.refusal.specs.declared.Refusal.TheVariants.{TooLong};
ghost use Rattle.tariff.specs.Tariff.{longest_call, charged, told, bill_of, Least};
ghost use Rattle.tariff.specs.Hours.{week_seconds, is_peak, unit_at, units_bought, Bought, bill_from, InsidePeak};

use refusal::Refusal;

// In milliseconds.
const UNIT: u64 = 60_000;

const LONGEST_CALL: u64 = 86_400_000;

const UNIT_PENCE: u64 = 5;

// Outside peak.
const CHEAP_UNIT: u64 = 180_000;

const WEEK_SECONDS: u64 = 604_800;

const WEEK: u64 = 604_800_000;

const DAY: u64 = 86_400_000;

// 08:00:00 and 18:00:00.
const PEAK_BEGINS: u64 = 28_800_000;

const PEAK_ENDS: u64 = 64_800_000;

#[derive(Clone, Copy)]
pub struct Bill {
    pub units: u64,
    pub pence: u64,
}

// The plain tariff. Its units cover the time and no fewer do, and a longer call never costs less.
pub fn charge(ms: u64) -> Result<Bill, Refusal>
    ensures value { result ≡ bill_of ms }
    ensures least { ms ≤ longest_call → Least (told result).units ms }
    ensures by_index { (longer : ℕ) → ms ≤ longer → longer ≤ longest_call → (told result).pence ≤ (told (bill_of longer)).pence }
{
    check_length(ms)?;
    Ok(charged(ms.div_ceil(UNIT)))
}

// Peak and cheap hours, from a second of the week. The units bought cover the time and all but the last do not, a longer
// call from the same start never costs less, and inside peak it is the plain tariff.
pub fn charge_from(ms: u64, start: u64) -> Result<Bill, Refusal>
    ensures value { result ≡ bill_from ms start }
    ensures bought { ms ≤ longest_call → start < week_seconds → Bought start ms (told result).units }
    ensures by_index { (longer : ℕ) → ms ≤ longer → longer ≤ longest_call → (told result).pence ≤ (told (bill_from longer start)).pence }
    ensures value_2 { InsidePeak start ms → result ≡ bill_of ms }
{
    check_length(ms)?;
    if start >= WEEK_SECONDS {
        return Err(Refusal::Start);
    }
    Ok(charged(buy(ms, start)))
}

// Either tariff has a longest call.
fn check_length(ms: u64) -> Result<(), Refusal>
    ensures { MatchResult result (λ _. ms ≤ longest_call) (λ cause. (longest_call < ms) × (cause ≡ TooLong)) }
{
    if ms > LONGEST_CALL {
        return Err(Refusal::TooLong);
    }
    Ok(())
}

// No call has more units than milliseconds.
fn charged(units: u64) -> Bill
    requires { units ≤ longest_call }
    ensures { result ≡ charged units }
{
    Bill {
        units,
        pence: units * UNIT_PENCE,
    }
}

// Units one after another, until the time is covered. That ends it, and not a count of units, so it is no `for`.
fn buy(ms: u64, start: u64) -> u64
    requires { (ms ≤ longest_call) × (start < week_seconds) }
    ensures value { result ≡ units_bought start ms }
    ensures upper_bound { result ≤ longest_call }
{
    let mut bought = 0;
    let mut units = 0;
    while bought < ms {
        let time = (start * 1000 + bought) % WEEK;
        bought += unit_at(time);
        units += 1;
    }
    units
}

// The length of a unit that starts at a millisecond of the week.
#[tactic(auto, unfolding(crate::specs::Hours::unit_at))]
fn unit_at(time: u64) -> u64
    ensures { result ≡ unit_at time }
{
    if is_peak(time) { UNIT } else { CHEAP_UNIT }
}

#[tactic(auto, unfolding(crate::specs::Hours::is_peak))]
fn is_peak(time: u64) -> bool
    ensures { result ≡ is_peak time }
{
    let weekday = time / DAY;
    let hour = time % DAY;
    weekday < 5 && (PEAK_BEGINS..PEAK_ENDS).contains(&hour)
}
