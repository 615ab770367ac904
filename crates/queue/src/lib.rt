// Bytes that wait, oldest first, up to 256 of them. A byte that leaves lets the others move up, so that
// two queues in which the same bytes wait are made alike.
#![tactic(auto)]

ghost use Rattle.std.specs.Prelude.{◌≡◌, ◌++◌, ◌≤◌, drop};
ghost use Rattle.queue.specs.Queue.{waiting, empty_queue, is_full, is_empty, pushed, push_answer, taken_if, oldest, first_out, popped, queue_ok};

use refusal::Refusal;

const PLACES: usize = 256;

// An array with a length beside it: C lends one, with any number for its length, and `ok` has to tell.
#[derive(Clone, Copy)]
pub struct Queue {
    pub bytes: [u8; 256],
    pub len: usize,
}

impl Queue {
    pub fn new() -> Queue
        ensures { result ≡ empty_queue }
    {
        Queue {
            bytes: [0; 256],
            len: 0,
        }
    }

    // One byte more, the newest. A full queue stays as it is.
    #[tactic(auto, unfolding(crate::specs::Queue::pushed))]
    pub fn push(&mut self, byte: u8) -> Result<(), Refusal>
        ensures value { self.new ≡ pushed self.old byte }
        ensures answer { result ≡ push_answer (is_full self.old) }
        ensures queue_value { waiting self.new ≡ waiting self.old ++ taken_if (is_full self.old) byte }
    {
        if self.is_full() {
            return Err(Refusal::QueueFull);
        }
        self.bytes[self.len] = byte;
        self.len += 1;
        Ok(())
    }

    pub fn is_full(&self) -> bool
        ensures { result ≡ is_full self.now }
    {
        self.len >= PLACES
    }

    pub fn is_empty(&self) -> bool
        ensures { result ≡ is_empty self.now }
    {
        self.len == 0
    }

    // The byte that has waited longest, if one waits.
    pub fn oldest(&self) -> Option<u8>
        ensures { result ≡ first_out self.now }
    {
        if self.is_empty() {
            return None;
        }
        Some(self.bytes[0])
    }

    // It leaves.
    pub fn pop(&mut self) -> Option<u8>
        ensures value { self.new ≡ popped self.old }
        ensures byte { result ≡ first_out self.old }
        ensures result_value { self.old.len ≤ 256 → waiting self.new ≡ drop 1 (waiting self.old) }
    {
        let byte = self.oldest()?;
        self.bytes.rotate_left(1);
        self.bytes[PLACES - 1] = 0;
        self.len -= 1;
        Some(byte)
    }

    // No more than 256 wait.
    #[tactic(auto, unfolding(crate::specs::Queue::queue_ok))]
    pub fn ok(&self) -> bool
        ensures { result ≡ queue_ok self.now }
    {
        self.len <= PLACES
    }
}
