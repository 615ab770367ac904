// The stages of an overture: a stage's state is a choice whose cases carry their oscillators.
// The samples that follow a state are defined in specs/Next; the writers of `overture` make them.
#![tactic(auto)]

ghost use Rattle.std.specs.Prelude.{◌≡◌};
ghost use Rattle.stage.specs.Stage.{stage_number, next_stage, stage_of, key_of, shown_of, waiting_of};
ghost use Rattle.stage.specs.Enter.{enter_of};

use fsk::FskChannel;
use keys::Key;
use nco::Nco;

const DIAL_TONE_A: f64 = 350.0;

const DIAL_TONE_B: f64 = 450.0;

const RING_A: f64 = 400.0;

const RING_B: f64 = 450.0;

const ANSAM_FREQ: f64 = 2100.0;

const ANSAM_AM_FREQ: f64 = 15.0;

const OFF_HOOK_SEED: u64 = 0x2545_F491_4F6C_DD1D;

// How long the stages last that have a fixed time.
pub const OFF_HOOK_S: f64 = 0.05;

pub const DIAL_TONE_S: f64 = 1.0;

pub const RING_STAGE_S: f64 = 4.0;

pub const ANSAM_S: f64 = 3.0;

pub const CJ_SILENCE_S: f64 = 0.075;

// By 01's numbers.
#[derive(Clone, Copy, PartialEq, Eq)]
pub enum Stage {
    OffHook = 1,
    DialTone = 2,
    Dialling = 3,
    Ringback = 4,
    Ci = 5,
    Ansam = 6,
    CmJm = 7,
    Cj = 8,
    Training = 9,
    Connected = 10,
}

impl From<Stage> for u8 {
    ghost from_gives = { λ stage number. number ≡ stage_number stage };

    fn from(stage: Stage) -> u8 {
        stage as u8
    }
}

#[derive(Clone, Copy)]
pub enum StageState {
    OffHook {
        rng: u64,
        n: u32,
    },
    DialTone {
        a: Nco,
        b: Nco,
        n: u32,
    },
    Dialling {
        digit_i: u64,
        in_tone: bool,
        a: Nco,
        b: Nco,
        n: u32,
    },
    Ringback {
        a: Nco,
        b: Nco,
        n: u32,
        // that of the last sample made; 1 on entry. A number, and no choice of two: C lends a set in which it may be any
        ring: u8,
    },
    Ci(FskChannel),
    Ansam {
        carrier: Nco,
        env: Nco,
        n: u32,
    },
    CmJm(FskChannel),
    Cj {
        fsk: FskChannel,
        silence_n: u32,
    },
    Training(FskChannel),
    Connected,
}

// What is shown of a sample.
#[derive(Clone, Copy)]
pub struct Shown {
    pub stage: Stage,
    pub key: Option<Key>,
}

impl Stage {
    // The stage that follows; Connected has no end. By the number it would need a way back from a number.
    pub fn next(self) -> Stage
        ensures { result ≡ next_stage self }
    {
        match self {
            Stage::OffHook => Stage::DialTone,
            Stage::DialTone => Stage::Dialling,
            Stage::Dialling => Stage::Ringback,
            Stage::Ringback => Stage::Ci,
            Stage::Ci => Stage::Ansam,
            Stage::Ansam => Stage::CmJm,
            Stage::CmJm => Stage::Cj,
            Stage::Cj => Stage::Training,
            Stage::Training => Stage::Connected,
            Stage::Connected => Stage::Connected,
        }
    }
}

impl StageState {
    // The stage of the next sample.
    pub fn stage(self) -> Stage
        ensures { result ≡ stage_of self }
    {
        match self {
            StageState::OffHook { .. } => Stage::OffHook,
            StageState::DialTone { .. } => Stage::DialTone,
            StageState::Dialling { .. } => Stage::Dialling,
            StageState::Ringback { .. } => Stage::Ringback,
            StageState::Ci(_) => Stage::Ci,
            StageState::Ansam { .. } => Stage::Ansam,
            StageState::CmJm(_) => Stage::CmJm,
            StageState::Cj { .. } => Stage::Cj,
            StageState::Training(_) => Stage::Training,
            StageState::Connected => Stage::Connected,
        }
    }

    // The key of the next sample. Only a digit's tone has one.
    fn key(self, digits: &[u8]) -> Option<Key>
        ensures { result ≡ key_of self digits.now }
    {
        match self {
            StageState::Dialling {
                digit_i,
                in_tone,
                ..
            } => tones::dialled_key(digits, digit_i, in_tone),
            _ => None,
        }
    }

    // What is shown of the next sample.
    pub fn shown(self, digits: &[u8]) -> Shown
        ensures { result ≡ shown_of self digits.now }
    {
        Shown {
            stage: self.stage(),
            key: self.key(digits),
        }
    }

    // What is shown before it, where no sample was made: its stage, and no key.
    pub fn waiting(self) -> Shown
        ensures { result ≡ waiting_of self }
    {
        Shown {
            stage: self.stage(),
            key: None,
        }
    }
}

// A stage's state before its first sample.
#[tactic(auto, unfolding(crate::specs::Enter::enter_of))]
pub fn enter_state(stage: Stage, digits: &[u8], rate: u32) -> StageState
    ensures { result ≡ enter_of stage digits.now rate }
{
    let r = f64::from(rate);
    match stage {
        Stage::OffHook => StageState::OffHook {
            rng: OFF_HOOK_SEED,
            n: 0,
        },
        Stage::DialTone => {
            let a = Nco::new(DIAL_TONE_A, r);
            let b = Nco::new(DIAL_TONE_B, r);
            StageState::DialTone { a, b, n: 0 }
        }
        Stage::Dialling => {
            let key = tones::digit_tones(digits, 0);
            StageState::Dialling {
                digit_i: 0,
                in_tone: true,
                a: Nco::new(key.low, r),
                b: Nco::new(key.high, r),
                n: 0,
            }
        }
        Stage::Ringback => {
            let a = Nco::new(RING_A, r);
            let b = Nco::new(RING_B, r);
            StageState::Ringback {
                a,
                b,
                n: 0,
                ring: 1,
            }
        }
        Stage::Ci => StageState::Ci(FskChannel::new(&frame::CI_PAYLOAD, rate)),
        Stage::Ansam => {
            let carrier = Nco::new(ANSAM_FREQ, r);
            let env = Nco::new(ANSAM_AM_FREQ, r);
            StageState::Ansam { carrier, env, n: 0 }
        }
        Stage::CmJm => StageState::CmJm(FskChannel::new(&frame::CMJM_PAYLOAD, rate)),
        Stage::Cj => StageState::Cj {
            fsk: FskChannel::new(&frame::CJ_PAYLOAD, rate),
            silence_n: 0,
        },
        Stage::Training => StageState::Training(FskChannel::new(&frame::TRAINING_PAYLOAD, rate)),
        Stage::Connected => StageState::Connected,
    }
}
