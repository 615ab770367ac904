// Whether a sender and the bytes that wait for it are sound, as 02 lists it.
ghost use Rattle.std.specs.Prelude.{◌≡◌};
ghost use Rattle.soundness.specs.Sending.{sender_ok, sending_ok};

use sender::{FRAME_BITS, Sender, Sending};

pub fn sender_ok(sender: Sender, rate: u32) -> bool
    ensures { result ≡ sender_ok sender rate }
{
    let m = sender.modulator;
    crate::modulator_ok(m, rate) & (sender.begun <= FRAME_BITS)
}

pub fn sending_ok(sending: Sending, rate: u32) -> bool
    ensures { result ≡ sending_ok sending rate }
{
    let sender = sending.sender;
    let queue = sending.queue;
    sender_ok(sender, rate) & queue.ok()
}
