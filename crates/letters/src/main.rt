// Bits from standard input, as the characters 0 and 1, back into bytes on standard output.
#![tactic(auto)]

use console::stream::{Answers, Program};
use deframe::Deframer;

// What stands between two bytes of the input.
#[derive(Drop)]
struct Letters {
    reader: Deframer,
}

fn main(rt: HostRuntime) {
    let errors = rt.stderr();
    if console::stream::refuses_words(&rt, &errors, "letters", "bits") {
        return;
    }
    let mut letters = Letters {
        reader: Deframer::new(),
    };
    console::stream::run(&mut rt.stdin(), &rt, &errors, &mut letters);
}

impl Program for Letters {
    fn name(&self) -> &'static [u8] {
        b"letters"
    }

    // Other characters than 0 and 1 are passed over. No bit gives more than one byte, so there is room for it.
    fn take(&mut self, byte: u8, answers: &mut Answers) -> bool {
        if !matches!(byte, b'0' | b'1') {
            return false;
        }
        let mut letter = [0u8; 1];
        let reading = self.reader.read(&[byte % 2], &mut letter);
        self.reader = reading.place;
        if reading.given == 1 {
            answers.put(&letter);
            return true;
        }
        false
    }

    // A frame that has not ended is no byte.
    fn finish(&mut self, _answers: &mut Answers) {}
}
