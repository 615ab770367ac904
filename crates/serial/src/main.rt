// The set behind a 16450, driven by lines: reads R, I, O, W and F, and prints for each the refusal, the
// value read, what the set then shows, and the bytes sent.
#![tactic(auto)]

ghost use Rattle.std.specs.Prelude.{◌≡◌};
ghost use Rattle.serial.specs.Answers.{chip_by, page_by};

use console::stream::{Answers, Program};
use lines::{Asked, Line};
use uart::Chip;

mod calls;
mod lines;
mod page;

// What stands between two bytes of the input.
#[derive(Drop)]
struct Desk {
    chip: Chip,
    line: Line,
    samples: [f32; 16384],
}

fn main(rt: HostRuntime) {
    let errors = rt.stderr();
    if console::stream::refuses_words(&rt, &errors, "serial", "lines") {
        return;
    }
    // Before any R line the chip is fresh at 8,000.
    let made = Chip::new(8000);
    let mut desk = Desk {
        chip: made.chip,
        line: Line::new(),
        samples: [0.0; 16384],
    };
    console::stream::run(&mut rt.stdin(), &rt, &errors, &mut desk);
}

impl Program for Desk {
    fn name(&self) -> &'static [u8] {
        b"serial"
    }

    fn take(&mut self, byte: u8, answers: &mut Answers) -> bool {
        if byte == b'\n' {
            let asked = self.line.asked();
            self.perform(asked, answers);
            self.line = Line::new();
            true
        } else {
            self.line.push(byte);
            false
        }
    }

    // A last line may be without its line feed.
    fn finish(&mut self, answers: &mut Answers) {
        let asked = self.line.asked();
        self.perform(asked, answers);
    }
}

impl Desk {
    // What a line leaves: the chip after its call, and the answer on the page.
    fn perform(&mut self, asked: Option<Asked>, answers: &mut Answers)
        ensures chip_after { self.new.chip ≡ chip_by 16384 self.old.chip asked }
        ensures page_after { answers.new ≡ page_by 16384 answers.old self.old.chip asked }
    {
        self.chip = calls::after(self.chip, asked, &mut self.samples, answers);
    }
}
