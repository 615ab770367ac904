// The line that `serial` prints, written on a page.
ghost use Rattle.std.specs.Prelude.{◌≡◌};
ghost use Rattle.refusal.specs.Refusal.{answer_number};
ghost use Rattle.serial.specs.Answers.{told};

use console::stream::Answers;
use refusal::Refusal;
use uart::Chip;

// Refusal, value, mode, state, stage, m, and the bytes sent.
pub fn put_told(
    answers: &mut Answers,
    chip: Chip,
    answer: Result<(), Refusal>,
    value: u8,
    sent: &[u8],
)
    ensures { answers.new ≡ told answers.old chip (answer_number answer) value sent.now }
{
    answers.put_number(refusal::answer_number(&answer) as u64);
    answers.put_number(value as u64);
    report::page::put_mode(answers, chip.in_command_mode());
    answers.put_number(u8::from(chip.state()) as u64);
    answers.put_number(chip.stage() as u64);
    answers.put_number(chip.m() as u64);
    answers.put_bytes(sent);
    answers.put_byte(b'\n');
}
