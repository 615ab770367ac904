// The program's own words, input and output, and what it says where one of them fails.
ghost use Rattle.std.specs.Prelude.{◌≡◌, ◌<◌, true, false, is_err, Ok, MatchResult, MatchOption};
ghost use Rattle.text.specs.Page.{fresh_page};

use std::env::{Env, FillError};
use std::fmt::Write;
use std::io;
use std::io::Read;
use text::Page;

// Whether the program was started with a word at this place. Its own name is at 0.
pub fn has_word(words: &impl Env, place: usize) -> bool {
    let mut front = [0u8; 1];
    !matches!(words.arg(place, &mut front), Err(FillError::NotPresent))
}

// Whether a program that takes no argument was started with one, which it then says. No equation is to be had: a
// program's words and standard error are handles, whose contracts tell no bytes.
pub fn refuses_words(words: &impl Env, errors: &impl Print, program: &str, input: &str) -> bool {
    let refused = has_word(words, 1);
    if refused {
        let mut line = Page::<128>::new();
        let _ = writeln!(
            line,
            "{program}: it takes no argument; its {input} come on standard input"
        );
        let _ = errors.write_all(line.text());
    }
    refused
}

// Writes a line to standard error: what failed, as the caller names it, a colon and the system's word for why.
pub fn fail(errors: &impl Print, what: &[u8], why: io::Error) {
    let mut word = Page::<320>::new();
    let _ = write!(word, "{why}");
    let number = number_of(why);
    let text = word.text();
    let _ = errors.write_all(what);
    let _ = errors.write_all(b": ");
    let _ = errors.write_all(text.strip_suffix(number.text()).unwrap_or(text));
    let _ = errors.write_all(b"\n");
}

// The number of an error, as std writes it behind the system's word; nothing where it has none.
fn number_of(why: io::Error) -> Page<320> {
    let mut number = Page::new();
    if let Some(code) = why.raw_os_error() {
        let _ = write!(number, " (os error {code})");
    }
    number
}

// What is answered and not yet written out.
pub type Answers = Page<65536>;

// Once there are more bytes than this, they are written out; those of one line fit into the room that is left.
const FULL: usize = 60000;

// A program that answers the bytes of its input. Of its answers no law is asked: one answers lines and another bits, each by its own contracts.
pub trait Program {
    // Its name, which stands in front of what it says on standard error.
    fn name(&self) -> &'static [u8];

    // One byte more. Whether it may have been answered: where not, no answers are more.
    fn take(&mut self, byte: u8, answers: &mut Answers) -> bool
        ensures { result ≡ false → answers.new ≡ answers.old };

    // The input ends here.
    fn finish(&mut self, answers: &mut Answers);
}

// What ends a run before its input does.
enum Failure {
    Input(io::Error),
    Output(io::Error),
}

// Runs a program until its input ends, or one of input and output fails, which is said on standard error.
// No equation is to be had: what it reads and writes goes over handles, whose contracts tell no bytes.
pub fn run(
    input: &mut impl Read,
    output: &impl Print,
    errors: &impl Print,
    program: &mut impl Program,
) {
    match answer_all(input, output, program) {
        Ok(()) => {}
        Err(Failure::Input(why)) => {
            fail_as(errors, program, b": standard input cannot be read", why);
        }
        Err(Failure::Output(why)) => {
            fail_as(errors, program, b": standard output cannot be written", why);
        }
    }
}

fn answer_all(
    input: &mut impl Read,
    output: &impl Print,
    program: &mut impl Program,
) -> Result<(), Failure> {
    let mut answers = Answers::new();
    let mut buffer = [0u8; 4096];
    // A proved loop has to end, and nothing says that the input does: no run uses up so many reads.
    for _ in 0..u64::MAX {
        let Some(count) = counted(input.read(&mut buffer))? else {
            break;
        };
        take_all(output, program, &buffer[..count], &mut answers)?;
    }
    program.finish(&mut answers);
    write_out(output, &mut answers)
}

// How many bytes a read gave, and none at the input's end, which ends the run; one that failed ends it too.
fn counted(read: io::Result<usize>) -> Result<Option<usize>, Failure>
    ensures { MatchResult result (λ came. MatchOption came (read ≡ Ok 0) (λ count. (0 < count) × (read ≡ Ok count))) (λ _. is_err read ≡ true) }
{
    match read {
        Ok(0) => Ok(None),
        Ok(count) => Ok(Some(count)),
        Err(why) => Err(Failure::Input(why)),
    }
}

// The bytes of one read; no answer to them waits for the next.
fn take_all(
    output: &impl Print,
    program: &mut impl Program,
    bytes: &[u8],
    answers: &mut Answers,
) -> Result<(), Failure>
    ensures { answers.new ≡ fresh_page 65536 }
{
    for byte in bytes {
        if program.take(*byte, answers) && answers.text().len() > FULL {
            write_out(output, answers)?;
        }
    }
    write_out(output, answers)
}

// Writes the answers out, and makes room for others.
fn write_out(output: &impl Print, answers: &mut Answers) -> Result<(), Failure>
    ensures { answers.new ≡ fresh_page 65536 }
{
    let written = output.write_all(answers.text());
    answers.clear();
    written.map_err(Failure::Output)
}

fn fail_as(errors: &impl Print, program: &impl Program, what: &[u8], why: io::Error) {
    let mut line = Page::<64>::new();
    line.put(program.name());
    line.put(what);
    fail(errors, line.text(), why);
}
