// The string that `tap --ext` keeps, read as bits by the reader that it keeps too, or taken as one frame.
ghost use Rattle.std.specs.Prelude.{◌≡◌, leb, length};
ghost use Rattle.deframe.specs.Read.{marks_of, read_of, answer_of, stopped};
ghost use Rattle.set.specs.Refusals.{either};
ghost use Rattle.panel.specs.Wall.{read_after};

use console::lines::Call;
use deframe::{Deframer, Reading};

// What a line makes of the reader, and what it takes and gives.
pub fn after(call: Call, place: Deframer, string: &[u8], out: &mut [u8]) -> Reading
    ensures { result ≡ answer_of (read_after (length out.old) string.now place call) }
{
    match call {
        Call::Bits(room) => read(place, room, string, out),
        Call::Rate(_) => still(Deframer::new()),
        _ => still(place),
    }
}

// Into the buffer's first `room` bytes.
fn read(place: Deframer, room: usize, string: &[u8], out: &mut [u8]) -> Reading
    ensures { result ≡ answer_of (either (leb room (length out.old)) (read_of room place (marks_of string.now)) (stopped place)) }
{
    if room > out.len() {
        return still(place);
    }
    place.read(string, &mut out[..room])
}

fn still(place: Deframer) -> Reading
    ensures { result ≡ answer_of (stopped place) }
{
    Reading {
        place,
        taken: 0,
        given: 0,
    }
}

// A string of ten, as marks. By place: as an array's `map` the proof was tried and did not close.
pub fn ten(string: &[u8]) -> [bool; 10]
    requires { length string.now ≡ 10 }
    ensures { result ≡ marks_of string.now }
{
    [
        deframe::is_mark(string[0]),
        deframe::is_mark(string[1]),
        deframe::is_mark(string[2]),
        deframe::is_mark(string[3]),
        deframe::is_mark(string[4]),
        deframe::is_mark(string[5]),
        deframe::is_mark(string[6]),
        deframe::is_mark(string[7]),
        deframe::is_mark(string[8]),
        deframe::is_mark(string[9]),
    ]
}
