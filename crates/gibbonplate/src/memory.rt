// The set in seven arrays that the caller lends.
ghost use Rattle.std.specs.Prelude.{◌≡◌, true, false};
ghost use Rattle.set.specs.Sound.{sound};
ghost use Rattle.gibbonplate.specs.Memory.{memory, stored, holds_set, too_many_bits, plain_in, processor_in, sending_in, set_in, loaded};

use crate::plain;
use crate::plain::PlainStage;
use at::AtProcessor;
use command::Line;
use fsk::Modulator;
use keys::Digits;
use nco::Nco;
use queue::Queue;
use sender::{Sender, Sending};
use session::Session;
use set::Set;

// How many marks a set has.
pub const MARKS: usize = 13;

// The seven arrays as one value. Programs call the exported functions with seven pointers, and those stay: `load`, `store` and each of them take seven.
#[derive(Clone, Copy)]
pub struct Memory {
    pub longs: [u64; 6],
    pub counts: [u32; 4],
    pub reals: [f64; 11],
    pub marks: [u8; MARKS],
    pub line: [u8; 80],
    pub keys: [u8; 76],
    pub queue: [u8; 256],
}

impl Memory {
    // Lays the set into memory.
    fn of(set: Set) -> Memory
        ensures value { result ≡ stored set }
        ensures back { loaded result ≡ set }
    {
        let p = set.processor;
        let e = set.session;
        let s = set.sending.sender;
        let tone = s.modulator;
        let waiting = set.sending.queue;
        let digits = e.digits;
        let x = plain::plain(e.stage);
        let line = p.cmd_buf.bytes;
        let keys = digits.keys;
        let queue = waiting.bytes;
        Memory {
            longs: [
                p.cmd_buf.len as u64,
                p.idle,
                p.carrier_down_for,
                digits.len as u64,
                x.own,
                waiting.len as u64,
            ],
            counts: [set.rate, e.m, x.count, x.zeros],
            reals: [
                x.a.phase,
                x.a.step,
                x.a.rate,
                x.b.phase,
                x.b.step,
                x.b.rate,
                tone.nco.phase,
                tone.nco.step,
                tone.nco.rate,
                tone.phase,
                tone.step,
            ],
            marks: [
                u8::from(p.in_command_mode),
                p.plus_count,
                u8::from(p.carrier_up),
                u8::from(e.state),
                e.shown,
                x.number,
                x.ring,
                u8::from(x.tone),
                u8::from(p.cmd_buf.ran_over),
                p.s12,
                s.byte,
                s.begun,
                u8::from(s.edge),
            ],
            line,
            keys,
            queue,
        }
    }

    fn holds_set(&self) -> bool
        ensures { result ≡ holds_set self.now.marks }
    {
        let marks = &self.marks;
        (marks[0] <= 1)
            & ((marks[2] <= 1)
                & ((marks[3] <= 3)
                    & ((1 <= marks[5])
                        & ((marks[5] <= 10)
                            & ((marks[7] <= 1) & ((marks[8] <= 1) & (marks[12] <= 1)))))))
    }

    fn plain_stage(&self) -> PlainStage
        ensures { result ≡ plain_in self.now.longs self.now.counts self.now.reals self.now.marks }
    {
        let Memory {
            longs,
            counts,
            reals,
            marks,
            ..
        } = self;
        PlainStage {
            number: marks[5],
            own: longs[4],
            count: counts[2],
            zeros: counts[3],
            ring: marks[6],
            tone: marks[7] == 1,
            a: Nco {
                phase: reals[0],
                step: reals[1],
                rate: reals[2],
            },
            b: Nco {
                phase: reals[3],
                step: reals[4],
                rate: reals[5],
            },
        }
    }

    fn processor(&self) -> AtProcessor
        ensures { result ≡ processor_in self.now.longs self.now.marks self.now.line }
    {
        let Memory {
            longs,
            marks,
            line,
            ..
        } = self;
        AtProcessor {
            in_command_mode: marks[0] == 1,
            cmd_buf: Line {
                bytes: *line,
                len: longs[0] as usize,
                ran_over: marks[8] == 1,
            },
            idle: longs[1],
            plus_count: marks[1],
            carrier_up: marks[2] == 1,
            carrier_down_for: longs[2],
            s12: marks[9],
        }
    }

    fn sending(&self) -> Sending
        ensures { result ≡ sending_in self.now.longs self.now.reals self.now.marks self.now.queue }
    {
        let Memory {
            longs,
            reals,
            marks,
            queue,
            ..
        } = self;
        Sending {
            sender: Sender {
                modulator: Modulator {
                    nco: Nco {
                        phase: reals[6],
                        step: reals[7],
                        rate: reals[8],
                    },
                    phase: reals[9],
                    step: reals[10],
                },
                byte: marks[10],
                begun: marks[11],
                edge: marks[12] == 1,
            },
            queue: Queue {
                bytes: *queue,
                len: longs[5] as usize,
            },
        }
    }

    fn set(&self) -> Set
        ensures { result ≡ set_in self.now }
    {
        let keys = self.keys;
        Set {
            rate: self.counts[0],
            processor: self.processor(),
            session: Session {
                state: plain::state_at(self.marks[3]),
                digits: Digits {
                    keys,
                    len: self.longs[3] as usize,
                },
                m: self.counts[1],
                shown: self.marks[4],
                stage: plain::staged(self.plain_stage()),
            },
            sending: self.sending(),
        }
    }
}

// The set that memory holds; of memory that holds none, a fresh one at rate 0, which is unsound.
pub fn load(
    longs: &[u64; 6],
    counts: &[u32; 4],
    reals: &[f64; 11],
    marks: &[u8; MARKS],
    line: &[u8; 80],
    keys: &[u8; 76],
    queue: &[u8; 256],
) -> Set
    ensures value { result ≡ loaded (memory longs.now counts.now reals.now marks.now line.now keys.now queue.now) }
    ensures unsound_with_no_set { holds_set marks.now ≡ false → sound result ≡ false }
    ensures unsound_with_too_many_bits { too_many_bits counts.now marks.now ≡ true → sound result ≡ false }
{
    let memory = Memory {
        longs: *longs,
        counts: *counts,
        reals: *reals,
        marks: *marks,
        line: *line,
        keys: *keys,
        queue: *queue,
    };
    if memory.holds_set() {
        return memory.set();
    }
    Set::fresh(0)
}

// Lays the set into memory.
pub fn store(
    set: Set,
    longs: &mut [u64; 6],
    counts: &mut [u32; 4],
    reals: &mut [f64; 11],
    marks: &mut [u8; MARKS],
    line: &mut [u8; 80],
    keys: &mut [u8; 76],
    queue: &mut [u8; 256],
)
    ensures value { memory longs.new counts.new reals.new marks.new line.new keys.new queue.new ≡ stored set }
    ensures back { loaded (memory longs.new counts.new reals.new marks.new line.new keys.new queue.new) ≡ set }
{
    let memory = Memory::of(set);
    longs.copy_from_slice(&memory.longs);
    counts.copy_from_slice(&memory.counts);
    reals.copy_from_slice(&memory.reals);
    marks.copy_from_slice(&memory.marks);
    line.copy_from_slice(&memory.line);
    keys.copy_from_slice(&memory.keys);
    queue.copy_from_slice(&memory.queue);
}
