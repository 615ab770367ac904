// One end of a call: where it is in the call, what was dialled, and the overture while it plays.
#![tactic(auto)]

ghost use Rattle.std.specs.Prelude.{◌≡◌, ◌≤◌, length, take};
ghost use Rattle.schedule.specs.Time.{min_rate, max_rate};
ghost use Rattle.schedule.specs.Length.{total};
ghost use Rattle.schedule.specs.Bounds.{TotalBounds};
ghost use Rattle.passage.specs.Overture.{HasLength};
ghost use Rattle.session.specs.Session.{state_number, digits_held, quiet_in, idle, answering, dialling, showing, filled_in, filled, written_in, written, key_in, key_after, ring_of, ring_number};
ghost use Rattle.session.specs.declared.SessionState.TheVariants.{Dialling};

use keys::{Digits, Key};
use stage::{Shown, Stage, StageState};

// By 01's numbers.
#[derive(Clone, Copy, PartialEq, Eq)]
pub enum SessionState {
    Idle = 0,
    Dialling = 1,
    Answering = 2,
    Connected = 3,
}

#[derive(Clone, Copy)]
pub struct Session {
    pub state: SessionState,
    pub digits: Digits,
    // samples written since the dial line
    pub m: u32,
    // the number of the stage shown; 0 for none. It is no Option: 01 says which of its numbers are sound, and a C program's memory
    // may hold any
    pub shown: u8,
    pub stage: StageState,
}

// The session after a fill, and the key of the fill's last sample.
#[derive(Clone, Copy)]
pub struct Filled {
    pub session: Session,
    pub key: Option<Key>,
}

impl From<SessionState> for u8 {
    ghost from_gives = { λ state number. number ≡ state_number state };

    #[tactic(auto, unfolding(crate::specs::Session::state_number))]
    fn from(state: SessionState) -> u8 {
        state as u8
    }
}

// Else 0, as 01 reports it.
fn ring(stage: StageState) -> u8
    ensures { result ≡ ring_of stage }
{
    match stage {
        StageState::Ringback { ring, .. } => ring,
        _ => 0,
    }
}

// A session with nothing dialled: no digits, and no samples to come.
fn quiet_in(state: SessionState) -> Session
    ensures { result ≡ quiet_in state }
{
    Session {
        state,
        digits: Digits::new(),
        m: 0,
        shown: 0,
        stage: StageState::Connected,
    }
}

impl Session {
    pub fn new() -> Session
        ensures { result ≡ idle }
    {
        Session::hangup()
    }

    // Starts the overture for the line's bytes after ATDT. At a rate of 01 it has one length, T, with demand 3's bounds. It takes any
    // number, and may not ask for a Rate.
    #[tactic(auto, unfolding(crate::specs::Session::dialling))]
    pub fn dial(line: &[u8], rate: u32) -> Session
        ensures value { result ≡ dialling line.now rate }
        ensures has_length { min_rate ≤ rate → rate ≤ max_rate → HasLength (digits_held result) rate (total rate result.digits.len) }
        ensures total_bounds { min_rate ≤ rate → rate ≤ max_rate → TotalBounds rate result.digits.len }
    {
        let digits = keys::dialled(line);
        let stage = stage::enter_state(Stage::OffHook, digits.held(), rate);
        Session {
            state: SessionState::Dialling,
            digits,
            m: 0,
            shown: 0,
            stage,
        }
    }

    #[tactic(auto, unfolding(crate::specs::Session::answering))]
    pub fn answer() -> Session
        ensures { result ≡ answering }
    {
        quiet_in(SessionState::Answering)
    }

    #[tactic(auto, unfolding(crate::specs::Session::idle))]
    pub fn hangup() -> Session
        ensures { result ≡ idle }
    {
        quiet_in(SessionState::Idle)
    }

    // The session after a fill in Dialling, of which what is shown and the next state are given.
    #[tactic(auto, unfolding(crate::specs::Session::connects))]
    fn showing(self, shown: Shown, b: usize, next: StageState) -> Session
        ensures { result ≡ showing self shown b next }
    {
        let (state, number) = if shown.stage == Stage::Connected {
            (SessionState::Connected, 0)
        } else {
            (SessionState::Dialling, u8::from(shown.stage))
        };
        Session {
            state,
            m: runs::saturating_add(self.m, b),
            shown: number,
            stage: next,
            ..self
        }
    }

    // A fill in Dialling: the overture's next samples.
    fn perform(self, rate: u32, out: &mut [f32]) -> Filled
        ensures session_value { result.session ≡ filled_in Dialling self (length out.old) rate }
        ensures key_value { result.key ≡ key_in Dialling self (length out.old) rate }
        ensures out_after { out.new ≡ written_in Dialling self (length out.old) rate }
    {
        let b = out.len();
        let w = overture::read(self.stage, self.digits.held(), rate, out);
        Filled {
            session: self.showing(w.shown, b, w.state),
            key: w.shown.key,
        }
    }

    // A fill. In Connected, where the set plays its sender (02, E10) and none comes here, it writes zeros.
    #[tactic(auto, using(crate::proofs::Other::silent), unfolding(crate::specs::Session::filled, crate::specs::Session::written, crate::specs::Session::key_after))]
    pub fn process_out(self, rate: u32, out: &mut [f32]) -> Filled
        ensures session_value { result.session ≡ filled self (length out.old) rate }
        ensures key_value { result.key ≡ key_after self (length out.old) rate }
        ensures out_after { out.new ≡ written self (length out.old) rate }
    {
        match self.state {
            SessionState::Dialling => self.perform(rate, out),
            _ => {
                overture::silence(out);
                Filled {
                    session: self,
                    key: None,
                }
            }
        }
    }

    #[tactic(auto, using(crate::proofs::Other::silent), unfolding(crate::specs::Session::ring_number))]
    pub fn ring_number(self) -> u8
        ensures { result ≡ ring_number self }
    {
        match self.state {
            SessionState::Dialling => ring(self.stage),
            _ => 0,
        }
    }
}
