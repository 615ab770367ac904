// A line's call on the chip, and its answer on the page.
ghost use Rattle.std.specs.Prelude.{◌≡◌, [], length, take};
ghost use Rattle.refusal.specs.Refusal.{number_of};
ghost use Rattle.uart.specs.Chip as uart;
ghost use Rattle.serial.specs.Answers.{told, lent_of, start_told, read_told, write_told, lapse_told, fill_told, chip_by, page_by};

use crate::lines::Asked;
use crate::page;
use console::stream::Answers;
use refusal::Refusal;
use uart::Chip;

// Answers the chip after the line.
pub fn after(chip: Chip, asked: Option<Asked>, samples: &mut [f32], answers: &mut Answers) -> Chip
    ensures chip_value { result ≡ chip_by (length samples.old) chip asked }
    ensures page_after { answers.new ≡ page_by (length samples.old) answers.old chip asked }
{
    match asked {
        Some(Asked::Rate(rate)) => start(rate, answers),
        Some(Asked::Read(address)) => read(chip, address, answers),
        Some(
            Asked::Write {
                address,
                value,
                carrier,
                outbox,
            },
        ) => write(chip, address, value, carrier, outbox, answers),
        Some(Asked::Lapse { ns, carrier }) => lapse(chip, ns, carrier, answers),
        Some(Asked::Fill(n)) => fill(chip, n, samples, answers),
        None => chip,
    }
}

fn start(rate: u32, answers: &mut Answers) -> Chip
    ensures chip_value { result ≡ (uart.started rate).chip }
    ensures page_after { answers.new ≡ start_told answers.old (uart.started rate) }
{
    let a = Chip::new(rate);
    let chip = a.chip;
    page::put_told(answers, chip, a.checked, 0, &[]);
    chip
}

fn read(chip: Chip, address: u8, answers: &mut Answers) -> Chip
    ensures chip_value { result ≡ uart.chip_read chip (uart.read chip address) }
    ensures page_after { answers.new ≡ read_told answers.old chip (uart.read chip address) }
{
    match chip.read(address) {
        Ok(read) => {
            let next = read.chip;
            page::put_told(answers, next, Ok(()), read.value, &[]);
            next
        }
        Err(refusal) => declined(chip, refusal, answers),
    }
}

// Into the first `n` bytes of an outbox.
fn write(chip: Chip, address: u8, value: u8, carrier: bool, n: usize, answers: &mut Answers) -> Chip
    ensures chip_value { result ≡ uart.chip_written chip (uart.write chip address value carrier (length (lent_of n))) }
    ensures page_after { answers.new ≡ write_told answers.old chip (uart.write chip address value carrier (length (lent_of n))) (uart.outbox chip address value (lent_of n)) }
{
    let mut outbox = [0u8; 16];
    write_lent(
        chip,
        address,
        value,
        carrier,
        &mut outbox[..n.min(16)],
        answers,
    )
}

fn write_lent(
    chip: Chip,
    address: u8,
    value: u8,
    carrier: bool,
    outbox: &mut [u8],
    answers: &mut Answers,
) -> Chip
    ensures chip_value { result ≡ uart.chip_written chip (uart.write chip address value carrier (length outbox.old)) }
    ensures page_after { answers.new ≡ write_told answers.old chip (uart.write chip address value carrier (length outbox.old)) (uart.outbox chip address value outbox.old) }
{
    match chip.write(address, value, carrier, outbox) {
        Ok(written) => {
            let next = written.chip;
            let sent = &outbox[..written.sent.min(outbox.len())];
            page::put_told(answers, next, Ok(()), 0, sent);
            next
        }
        Err(refusal) => declined(chip, refusal, answers),
    }
}

fn lapse(chip: Chip, ns: u64, carrier: bool, answers: &mut Answers) -> Chip
    ensures chip_value { result ≡ uart.chip_left chip (uart.lapsed chip ns carrier) }
    ensures page_after { answers.new ≡ lapse_told answers.old chip (uart.lapsed chip ns carrier) }
{
    match chip.lapse(ns, carrier) {
        Ok(next) => {
            page::put_told(answers, next, Ok(()), 0, &[]);
            next
        }
        Err(refusal) => declined(chip, refusal, answers),
    }
}

// The first `n` samples, or all where there are no more.
fn fill(chip: Chip, n: usize, samples: &mut [f32], answers: &mut Answers) -> Chip
    ensures chip_value { result ≡ uart.chip_filled chip (uart.filled chip (length (take n samples.old))) }
    ensures page_after { answers.new ≡ fill_told answers.old chip (uart.filled chip (length (take n samples.old))) }
{
    let count = n.min(samples.len());
    match chip.fill(&mut samples[..count]) {
        Ok(filled) => {
            let next = filled.chip;
            page::put_told(answers, next, Ok(()), 0, &[]);
            next
        }
        Err(refusal) => declined(chip, refusal, answers),
    }
}

// A call that is declined leaves the chip as it was, and reads and sends nothing.
fn declined(chip: Chip, refusal: Refusal, answers: &mut Answers) -> Chip
    ensures chip_value { result ≡ chip }
    ensures page_after { answers.new ≡ told answers.old chip (number_of refusal) 0 [] }
{
    page::put_told(answers, chip, Err(refusal), 0, &[]);
    chip
}
