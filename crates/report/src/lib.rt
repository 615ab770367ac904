// The line that `wall` prints for a call.
#![tactic(auto)]

ghost use Rattle.std.specs.Prelude.{◌≡◌, ◌∷◌, []};
ghost use Rattle.ascii.specs.Ascii.{ascii};
ghost use Rattle.text.specs.Text.{page_of, add_of};
ghost use Rattle.text.specs.Digits.{decimal_of};
ghost use Rattle.report.specs.Report.{mode_text, report_line};

use text::Page;

pub mod page;

// What is shown after a call, in 01's order and numbers.
#[derive(Clone, Copy)]
pub struct Report {
    pub refusal: u8,
    pub in_command_mode: bool,
    pub state: u8,
    pub stage: u8,
    pub m: u32,
    pub first: u8,
    pub second: u8,
}

// The whole line, or nothing where it does not fit.
pub fn put_report(out: &mut [u8], at: usize, report: Report) -> usize
    ensures { page_of out.new result ≡ add_of (page_of out.old at) (report_line report) }
{
    text::put(out, at, compose(report).text())
}

// The line alone: six numbers of up to twenty digits, a letter, six commas and a line feed have room on it.
fn compose(report: Report) -> Page<128>
    ensures { result.text ≡ report_line report }
{
    let mut line = Page::new();
    line.put_number(report.refusal as u64);
    page::put_mode(&mut line, report.in_command_mode);
    line.put_number(report.state as u64);
    line.put_number(report.stage as u64);
    line.put_number(report.m as u64);
    line.put_number(report.first as u64);
    line.put_decimal(report.second as u64);
    line.put_byte(b'\n');
    line
}

pub fn put_number(out: &mut [u8], at: usize, number: u64) -> usize
    ensures { page_of out.new result ≡ add_of (add_of (page_of out.old at) (decimal_of number)) (ascii ",") }
{
    let k = text::put_decimal(out, at, number);
    text::put_byte(out, k, b',')
}

pub fn put_mode(out: &mut [u8], at: usize, in_command_mode: bool) -> usize
    ensures { page_of out.new result ≡ add_of (add_of (page_of out.old at) (mode_text in_command_mode)) (ascii ",") }
{
    let k = text::put_byte(out, at, mode(in_command_mode));
    text::put_byte(out, k, b',')
}

// C in command mode, D in data mode.
#[tactic(auto, unfolding(crate::specs::Report::mode_text))]
fn mode(in_command_mode: bool) -> u8
    ensures { result ∷ [] ≡ mode_text in_command_mode }
{
    if in_command_mode { b'C' } else { b'D' }
}
