// The same on a page.
ghost use Rattle.std.specs.Prelude.{◌≡◌};
ghost use Rattle.ascii.specs.Ascii.{ascii};
ghost use Rattle.text.specs.Page.{add_of};
ghost use Rattle.report.specs.Report.{mode_text, report_line};

use crate::Report;
use text::Page;

// The whole line, or nothing where it does not fit.
pub fn put_report<const N: usize>(page: &mut Page<N>, report: Report)
    ensures { page.new ≡ add_of page.old (report_line report) }
{
    page.put(crate::compose(report).text());
}

pub fn put_mode<const N: usize>(page: &mut Page<N>, in_command_mode: bool)
    ensures { page.new ≡ add_of (add_of page.old (mode_text in_command_mode)) (ascii ",") }
{
    page.put_byte(crate::mode(in_command_mode));
    page.put_byte(b',');
}
