// What calls would have cost: reads lines of milliseconds, with or without a start, and prints for each
// the refusal, the units and the pence.
#![tactic(auto)]

use console::stream::{Answers, Program};
use lines::Line;

mod lines;
mod page;

// What stands between two bytes of the input.
#[derive(Drop)]
struct Desk {
    line: Line,
}

fn main(rt: HostRuntime) {
    let errors = rt.stderr();
    if console::stream::refuses_words(&rt, &errors, "bill", "lines") {
        return;
    }
    let mut desk = Desk { line: Line::new() };
    console::stream::run(&mut rt.stdin(), &rt, &errors, &mut desk);
}

impl Program for Desk {
    fn name(&self) -> &'static [u8] {
        b"bill"
    }

    fn take(&mut self, byte: u8, answers: &mut Answers) -> bool {
        if byte == b'\n' {
            page::put_answer(answers, self.line.asked());
            self.line = Line::new();
            true
        } else {
            self.line.push(byte);
            false
        }
    }

    // A last line may be without its line feed.
    fn finish(&mut self, answers: &mut Answers) {
        page::put_answer(answers, self.line.asked());
    }
}
