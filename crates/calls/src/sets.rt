// The sets that are tried, made of a dialled one by their public fields.
use at::AtProcessor;
use command::Line;
use fsk::{FskChannel, Modulator};
use keys::Digits;
use nco::Nco;
use queue::Queue;
use sender::{Sender, Sending};
use session::{Session, SessionState};
use set::Set;
use stage::StageState;

pub fn fresh(rate: u32) -> Set {
    Set::new(rate).set
}

// A set that has dialled 12.
pub fn dialled(rate: u32) -> Set {
    Set {
        session: Session::dial(b"12", rate),
        ..fresh(rate)
    }
}

fn with_processor(processor: AtProcessor) -> Set {
    Set {
        processor,
        ..dialled(8000)
    }
}

fn with_session(session: Session) -> Set {
    Set {
        session,
        ..dialled(8000)
    }
}

fn session() -> Session {
    dialled(8000).session
}

pub fn rate(rate: u32) -> Set {
    Set {
        rate,
        ..dialled(8000)
    }
}

pub fn line(len: usize, ran_over: bool) -> Set {
    let cmd_buf = Line {
        bytes: [b'1'; 80],
        len,
        ran_over,
    };
    with_processor(AtProcessor {
        cmd_buf,
        ..AtProcessor::new()
    })
}

// With an S12 of 9, and so many bytes of ATS12=2 typed.
pub fn s12_line(len: usize) -> Set {
    let mut bytes = [0u8; 80];
    bytes[..7].copy_from_slice(b"ATS12=2");
    let cmd_buf = Line {
        bytes,
        len,
        ran_over: false,
    };
    with_processor(AtProcessor {
        cmd_buf,
        s12: 9,
        ..AtProcessor::new()
    })
}

// In data mode.
pub fn pluses(plus_count: u8) -> Set {
    with_processor(AtProcessor {
        in_command_mode: false,
        plus_count,
        ..AtProcessor::new()
    })
}

pub fn down_for(carrier_down_for: u64) -> Set {
    with_processor(AtProcessor {
        carrier_down_for,
        ..AtProcessor::new()
    })
}

pub fn connected() -> Set {
    with_session(Session {
        state: SessionState::Connected,
        ..session()
    })
}

fn with_sending(sending: Sending) -> Set {
    Set {
        sending,
        ..connected()
    }
}

// Connected, and so many bytes W waiting.
pub fn waiting(len: usize) -> Set {
    with_sending(Sending {
        sender: Sender::new(8000),
        queue: Queue {
            bytes: [b'W'; 256],
            len,
        },
    })
}

fn with_sender(sender: Sender) -> Set {
    with_sending(Sending {
        sender,
        queue: Queue {
            bytes: [b'W'; 256],
            len: 1,
        },
    })
}

// Connected, a byte W waiting, and so many bits of the frame of S begun, before an edge or not.
pub fn begun(begun: u8, edge: bool) -> Set {
    with_sender(Sender {
        byte: b'S',
        begun,
        edge,
        ..Sender::new(8000)
    })
}

pub fn sender(nco: Nco, phase: f64, step: f64) -> Set {
    let modulator = Modulator { nco, phase, step };
    with_sender(Sender {
        modulator,
        ..Sender::new(8000)
    })
}

pub fn m(m: u32) -> Set {
    with_session(Session { m, ..session() })
}

pub fn shown(shown: u8) -> Set {
    with_session(Session { shown, ..session() })
}

pub fn digits(key: u8, len: usize) -> Set {
    let digits = Digits {
        keys: [key; 76],
        len,
    };
    with_session(Session {
        digits,
        ..session()
    })
}

pub fn stage(stage: StageState) -> Set {
    with_session(Session { stage, ..session() })
}

pub fn oscillator(phase: f64, step: f64, rate: f64) -> Set {
    let a = Nco { phase, step, rate };
    let b = tone();
    stage(StageState::DialTone { a, b, n: 0 })
}

pub fn tone() -> Nco {
    Nco::new(440.0, 8000.0)
}

pub fn channel(done: u16, phase: f64, step: f64) -> FskChannel {
    let nco = tone();
    let modulator = Modulator { nco, phase, step };
    FskChannel { modulator, done }
}

// A channel at the beginning of a bit.
pub fn sent(done: u16) -> FskChannel {
    channel(done, 0.0, schedule::symbol_step(8000))
}
