// The cue: for a digit of the call, the first sample of that digit's tone, so that a light can be set to it, and its key.
#![tactic(auto)]

ghost use Rattle.std.specs.Prelude.{◌≡◌, true, ◌+◌, ◌<◌, IfOk};
ghost use Rattle.math.specs.Float.{one};
ghost use Rattle.schedule.specs.Time.{samples_in};
ghost use Rattle.schedule.specs.Length.{click_time};
ghost use Rattle.tones.specs.Dial.{dialled_key};
ghost use Rattle.passage.specs.Lengths.{samples_of_digits};
ghost use Rattle.passage.specs.Cue.{FirstInTone};
ghost use Rattle.session.specs.Session.{digits_held};
ghost use Rattle.cue.specs.declared.Cued.{Cued};
ghost use Rattle.cue.specs.Cue.{cue_cause, cued};

use keys::Key;
use refusal::Refusal;
use schedule::Rate;
use session::SessionState;
use set::Set;

#[derive(Clone, Copy)]
pub struct Cued {
    pub sample: u64,
    // that of the digit
    pub key: Option<Key>,
}

// The sample after the click, the dial tone and the digits before.
fn cue_sample(position: u32, rate: Rate) -> u64
    requires { position < 76 }
    ensures { result ≡ samples_in click_time rate.hertz + samples_in one rate.hertz + samples_of_digits rate.hertz position + 1 }
{
    let click = schedule::stage_samples_for(stage::OFF_HOOK_S, rate.hertz);
    let tone = schedule::stage_samples_for(stage::DIAL_TONE_S, rate.hertz);
    let digits = passage::samples_of_digits(position as u64, rate);
    click + tone + digits + 1
}

// The key of the digit at a position.
fn cue_key(set: Set, position: u32) -> Option<Key>
    ensures { result ≡ dialled_key (digits_held set.session) position true }
{
    let digits = set.digits();
    tones::dialled_key(digits.held(), position as u64, true)
}

#[tactic(auto, unfolding(crate::specs::Cue::cue_cause, session::specs::Session::state_number))]
fn cue_cause(set: Set, position: u32) -> Result<(), Refusal>
    ensures { result ≡ cue_cause set position }
{
    set.sound_cause()?;
    let dialled = set.digits().len;
    if set.state() == SessionState::Dialling && (position as usize) < dialled {
        return Ok(());
    }
    Err(Refusal::Position)
}

// The first sample number, from 1 in the whole overture, in the tone of the digit at a position, and the digit's key.
#[tactic(auto, unfolding(crate::specs::Cue::cued))]
pub fn cue(set: Set, position: u32) -> Result<Cued, Refusal>
    ensures value { result ≡ cued set position }
    ensures first_in_tone { IfOk result (λ (c : Cued). FirstInTone (digits_held set.session) set.rate position c.sample) }
{
    cue_cause(set, position)?;
    // the rate of a sound set is within the limits
    let rate = Rate { hertz: set.rate };
    let sample = cue_sample(position, rate);
    let key = cue_key(set, position);
    Ok(Cued { sample, key })
}
