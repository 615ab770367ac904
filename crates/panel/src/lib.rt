// Runs the lines of `wall` and `tap`: each call on the set that the one before returned, and what
// the set then shows as a line of text.
#![tactic(auto)]

ghost use Rattle.std.specs.Prelude.{◌≡◌, false};
ghost use Rattle.deframe.specs.Read.{answer_of};
ghost use Rattle.text.specs.Page.{add_of};
ghost use Rattle.panel.specs.Wall.{read_line, shown_line, kept_line, lit_left, line_of, has_bits};

use console::lines::{Call, Parser};
use console::stream::{Answers, Program};
use deframe::Deframer;
use keys::Key;
use set::Set;
use shown::Told;
use std::io::Read;
use text::Page;

mod bits;
mod keep;
mod page;
mod shown;

// Which program it is.
#[derive(Clone, Copy, PartialEq, Eq)]
pub enum Form {
    Wall,
    // with the lines of 02, which no program asks for
    WallExtended,
    // a second line for each answer
    Tap,
    // `tap --ext`: the lines of 02 too
    Extended,
}

impl Form {
    fn is_extended(self) -> bool {
        matches!(self, Form::WallExtended | Form::Extended)
    }

    // Whether each answer has a second line.
    fn has_bits(self) -> bool
        ensures { result ≡ has_bits self }
    {
        matches!(self, Form::Tap | Form::Extended)
    }
}

// What stands between two bytes of the input.
#[derive(Drop)]
struct Panel {
    form: Form,
    set: Set,
    parser: Parser,
    // `tap --ext`: the string that it keeps
    string: Page<300>,
    // `tap --ext`: the reader's place
    reader: Deframer,
    // and the key that the last fill answered
    lit: Option<Key>,
    samples: [f32; 70000],
}

// The whole program.
pub fn run(input: &mut impl Read, output: &impl Print, errors: &impl Print, form: Form) {
    console::stream::run(input, output, errors, &mut Panel::new(form));
}

impl Program for Panel {
    fn name(&self) -> &'static [u8] {
        match self.form {
            Form::Wall | Form::WallExtended => b"wall",
            Form::Tap | Form::Extended => b"tap",
        }
    }

    fn take(&mut self, byte: u8, answers: &mut Answers) -> bool {
        let Some(call) = self.parser.push(byte) else {
            return false;
        };
        self.perform(Some(call), answers);
        true
    }

    // A last line may be without its line feed.
    fn finish(&mut self, answers: &mut Answers) {
        let call = self.parser.finish();
        self.perform(call, answers);
    }
}

impl Panel {
    // 01: before any R line the rate is 8000.
    fn new(form: Form) -> Self {
        let made = Set::new(8000);
        Panel {
            form,
            set: made.set,
            parser: Parser::new(form.is_extended()),
            string: Page::new(),
            reader: Deframer::new(),
            lit: None,
            samples: [0.0; 70000],
        }
    }

    // What a line leaves, where it is a call: the set after it, the string, the reader and the key that are kept, and, without `tap`'s second line, 01's line on the page.
    fn perform(&mut self, call: Option<Call>, answers: &mut Answers)
        ensures set_after { self.new.set ≡ (shown_line 1200 1200 70000 self.old.string.text (answer_of (read_line 1200 self.old.string.text self.old.reader call)) self.old.set call).set }
        ensures reader_after { self.new.reader ≡ (read_line 1200 self.old.string.text self.old.reader call).place }
        ensures string_after { self.new.string.text ≡ kept_line 300 self.old.string.text call }
        ensures lit_after { self.new.lit ≡ lit_left self.old.lit (shown_line 1200 1200 70000 self.old.string.text (answer_of (read_line 1200 self.old.string.text self.old.reader call)) self.old.set call).told }
        ensures page_after { has_bits self.old.form ≡ false → answers.new ≡ add_of answers.old (line_of (shown_line 1200 1200 70000 self.old.string.text (answer_of (read_line 1200 self.old.string.text self.old.reader call)) self.old.set call)) }
    {
        let Some(call) = call else {
            return;
        };
        let mut outbox = [0u8; 1200];
        let mut codes = [0u8; 1200];
        let string = self.string.text();
        let reading = bits::after(call, self.reader, string, &mut outbox);
        let shown = shown::after(
            self.set,
            call,
            reading,
            string,
            &mut outbox,
            &mut codes,
            &mut self.samples,
        );
        keep::after(call, &mut self.string);
        self.set = shown.set;
        self.reader = reading.place;
        shown::put_line(answers, shown);
        if let Some(Told { second, .. }) = shown.told {
            self.lit = keep::lit(self.lit, second);
            if self.form.has_bits() {
                page::put_bits(
                    answers,
                    self.set,
                    second,
                    self.lit,
                    &outbox,
                    &codes,
                    &self.samples,
                );
            }
        }
    }
}
