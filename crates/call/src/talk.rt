// What a call sends once its line is up: a fifth of a second of mark, on which a decoder settles, and
// then the bytes of a text, queued as places get free.
use crate::play;
use set::Set;

// A set, what of the text is not queued yet, and how many samples of mark are to come first.
#[derive(Clone, Copy)]
pub struct Talk<'a> {
    set: Set,
    rest: &'a [u8],
    mark: u32,
}

impl<'a> Talk<'a> {
    pub fn new(set: Set, message: &'a [u8]) -> Self {
        Talk {
            set,
            rest: message,
            mark: set.rate() / 5,
        }
    }

    // The fill that follows, with what is queued before it.
    pub fn fill(&mut self, samples: &mut [f32]) {
        if self.mark == 0 {
            self.queue();
        }
        // What the overture fills is no mark.
        if !play::is_dialling(self.set) {
            self.mark -= play::at_most(samples.len(), self.mark);
        }
        self.set = self.set.after_fill(samples);
    }

    // Queues what there is room for.
    fn queue(&mut self) {
        let rest = self.rest;
        for (i, byte) in rest.iter().enumerate() {
            match self.set.queue_byte(*byte) {
                Ok(queued) => self.set = queued,
                Err(_) => {
                    self.rest = &rest[i..];
                    return;
                }
            }
        }
        self.rest = b"";
    }

    fn goes_on(&self) -> bool {
        !self.rest.is_empty() || is_sending(self.set)
    }
}

// The samples of the fills from the one behind `fill` others to the one in which the text's last frame ends; None where there is no text.
pub fn length(set: Set, fill: u32, message: &[u8], samples: &mut [f32]) -> Option<u32> {
    if message.is_empty() {
        return None;
    }
    let mut talk = Talk::new(set, message);
    let mut total: u32 = 0;
    // A proved loop has to end: no text takes as many fills as this one allows.
    for at in fill..u32::MAX {
        if !talk.goes_on() {
            break;
        }
        let n = play::length(at);
        if n <= samples.len() {
            talk.fill(&mut samples[..n]);
        }
        total = total.wrapping_add(play::at_most(n, u32::MAX));
    }
    Some(total)
}

// A byte waits, or the last frame has not ended yet.
fn is_sending(set: Set) -> bool {
    let sending = set.sending;
    let sender = sending.sender;
    !sending.queue.is_empty() || is_unfinished(sender.begun, sender.edge)
}

// Where all ten bits are begun, the edge to come ends the frame.
fn is_unfinished(begun: u8, edge: bool) -> bool {
    begun > 0 && !(edge && begun >= 10)
}
