// The state of a stage as plain numbers: the enum's cases side by side, with zeros where a case has nothing to say.
ghost use Rattle.std.specs.Prelude.{◌≤◌, ◌≡◌};
ghost use Rattle.fsk.specs.Channel.{most_done};
ghost use Rattle.gibbonplate.specs.Memory.{blank, bits_plain, plain, done_in, bits_of, staged, state_at};

use fsk::{FskChannel, Modulator};
use nco::Nco;
use session::SessionState;
use stage::StageState;

#[derive(Clone, Copy)]
pub struct PlainStage {
    // 01's number
    pub number: u8,
    // OffHook's generator, Dialling's digit
    pub own: u64,
    // samples so far, or bits done
    pub count: u32,
    pub zeros: u32,
    pub ring: u8,
    pub tone: bool,
    pub a: Nco,
    // the second oscillator, or the symbol clock's phase and step
    pub b: Nco,
}

// No oscillators and no counts.
fn blank(number: u8) -> PlainStage
    ensures { result ≡ blank number }
{
    let none = Nco {
        phase: 0.0,
        step: 0.0,
        rate: 0.0,
    };
    PlainStage {
        number,
        own: 0,
        count: 0,
        zeros: 0,
        ring: 0,
        tone: false,
        a: none,
        b: none,
    }
}

// Its second promise is what the type says: so many bits are read back as they were.
fn bits_plain(number: u8, fsk: FskChannel, zeros: u32) -> PlainStage
    ensures value { result ≡ bits_plain number fsk zeros }
    ensures done_le_most_done { fsk.done ≤ most_done }
{
    let m = fsk.modulator;
    PlainStage {
        count: u32::from(fsk.done),
        zeros,
        a: m.nco,
        b: Nco {
            phase: m.phase,
            step: m.step,
            rate: 0.0,
        },
        ..blank(number)
    }
}

pub fn plain(stage: StageState) -> PlainStage
    ensures value { result ≡ plain stage }
    ensures back { staged result ≡ stage }
{
    match stage {
        StageState::OffHook { rng, n } => PlainStage {
            own: rng,
            count: n,
            ..blank(1)
        },
        StageState::DialTone { a, b, n } => PlainStage {
            count: n,
            a,
            b,
            ..blank(2)
        },
        StageState::Dialling {
            digit_i,
            in_tone,
            a,
            b,
            n,
        } => PlainStage {
            own: digit_i,
            count: n,
            tone: in_tone,
            a,
            b,
            ..blank(3)
        },
        StageState::Ringback { a, b, n, ring } => PlainStage {
            count: n,
            ring,
            a,
            b,
            ..blank(4)
        },
        StageState::Ci(fsk) => bits_plain(5, fsk, 0),
        StageState::Ansam { carrier, env, n } => PlainStage {
            count: n,
            a: carrier,
            b: env,
            ..blank(6)
        },
        StageState::CmJm(fsk) => bits_plain(7, fsk, 0),
        StageState::Cj { fsk, silence_n } => bits_plain(8, fsk, silence_n),
        StageState::Training(fsk) => bits_plain(9, fsk, 0),
        StageState::Connected => blank(10),
    }
}

// A count of more bits than 16 bits can hold is the largest: no stage has so many, and the set is unsound.
fn bits_done(count: u32) -> u16
    ensures { result ≡ done_in count }
{
    u16::try_from(count).unwrap_or(u16::MAX)
}

fn bits(p: PlainStage) -> FskChannel
    ensures { result ≡ bits_of p }
{
    FskChannel {
        modulator: Modulator {
            nco: p.a,
            phase: p.b.phase,
            step: p.b.step,
        },
        done: bits_done(p.count),
    }
}

// Another number than a stage's is taken for 10: `holds_set` asks for all marks in one place, and an Option here would ask again.
pub fn staged(p: PlainStage) -> StageState
    ensures { result ≡ staged p }
{
    let number = p.number;
    let fsk = bits(p);
    let a = p.a;
    let b = p.b;
    match number {
        1 => StageState::OffHook {
            rng: p.own,
            n: p.count,
        },
        2 => StageState::DialTone { a, b, n: p.count },
        3 => StageState::Dialling {
            digit_i: p.own,
            in_tone: p.tone,
            a,
            b,
            n: p.count,
        },
        4 => StageState::Ringback {
            a,
            b,
            n: p.count,
            ring: p.ring,
        },
        5 => StageState::Ci(fsk),
        6 => StageState::Ansam {
            carrier: a,
            env: b,
            n: p.count,
        },
        7 => StageState::CmJm(fsk),
        8 => StageState::Cj {
            fsk,
            silence_n: p.zeros,
        },
        9 => StageState::Training(fsk),
        _ => StageState::Connected,
    }
}

// A number that is no state's is taken for Idle: `holds_set` has asked, and a TryFrom would ask again.
pub fn state_at(number: u8) -> SessionState
    ensures { result ≡ state_at number }
{
    match number {
        1 => SessionState::Dialling,
        2 => SessionState::Answering,
        3 => SessionState::Connected,
        _ => SessionState::Idle,
    }
}
