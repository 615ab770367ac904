// A call before it is made: its digits, and its rate.
ghost use Rattle.std.specs.Prelude.{◌≡◌, ◌≤◌, length, Ok, Err, MatchResult};
ghost use Rattle.schedule.specs.Length.{max_digits};

use keys::Digits;
use refusal::Refusal;
use schedule::Rate;

#[derive(Clone, Copy)]
pub struct Call {
    pub digits: Digits,
    pub rate: Rate,
    pub ghost few: { digits.len ≤ max_digits },
}

impl Call {
    ghost use Rattle.plan.specs.Plan.{plan_cause};
    ghost use Rattle.plan.specs.Call.{call_digits, IsCallOf, IsRateOf};
    ghost use Rattle.std.specs.Prelude.{take};
    ghost use Rattle.schedule.specs.Length.{stage_lengths};

    // The call of the digits that a dial line would have of the bytes.
    pub fn new(bytes: &[u8], rate: u32) -> Result<Call, Refusal>
        ensures { MatchResult result (λ call. IsCallOf call bytes.now rate) (λ refusal. plan_cause (length bytes.now) rate ≡ Err refusal) }
    {
        let rate = Call::rate_of(bytes.len(), rate)?;
        let digits = keys::dialled(bytes);
        Ok(Call { digits, rate })
    }

    // The rate of a call of so many bytes, of which none is read. Declined are a bad rate, and more bytes than a line has, keys or not.
    pub(crate) fn rate_of(count: usize, rate: u32) -> Result<Rate, Refusal>
        ensures { MatchResult result (λ accepted. IsRateOf accepted count rate) (λ refusal. plan_cause count rate ≡ Err refusal) }
    {
        let rate = Rate::new(rate).ok_or(Refusal::Rate)?;
        if count as u64 > schedule::MAX_DIGITS {
            return Err(Refusal::Digits);
        }
        Ok(rate)
    }

    pub fn digits(&self) -> &[u8]
        ensures { result.now ≡ call_digits self.now }
    {
        &self.digits.keys[..self.digits.len]
    }

    // The samples of stages 1 to 4, which come before the bits.
    pub fn before_bits(&self) -> [u32; 4]
        ensures { result ≡ take 4 (stage_lengths self.now.rate.hertz (length (call_digits self.now))) }
    {
        let rate = self.rate.hertz;
        let click = schedule::stage_samples_for(stage::OFF_HOOK_S, rate) as u32;
        let tone = schedule::stage_samples_for(stage::DIAL_TONE_S, rate) as u32;
        let dialling = schedule::dialling_samples(self.digits().len() as u64, rate) as u32;
        let ringback = schedule::stage_samples_for(stage::RING_STAGE_S, rate) as u32;
        [click, tone, dialling, ringback]
    }
}
