// The line that `bill` prints, written on a page.
ghost use Rattle.std.specs.Prelude.{◌≡◌};
ghost use Rattle.bill.specs.Page.{billed, answered};

use crate::lines::Asked;
use console::stream::Answers;
use refusal::Refusal;
use tariff::Bill;

// What is told of a call that is not charged.
const NOTHING: Bill = Bill { units: 0, pence: 0 };

// What the call costs, or nothing where the line asks for nothing.
pub fn put_answer(answers: &mut Answers, asked: Option<Asked>)
    ensures { answers.new ≡ answered answers.old asked }
{
    match asked {
        Some(Asked::Time(ms)) => put_bill(answers, tariff::charge(ms)),
        Some(Asked::From { ms, start }) => put_bill(answers, tariff::charge_from(ms, start)),
        None => {}
    }
}

#[tactic(auto, unfolding(crate::specs::Page::billed))]
fn put_bill(answers: &mut Answers, answer: Result<Bill, Refusal>)
    ensures { answers.new ≡ billed answers.old answer }
{
    let number = refusal::answer_number(&answer);
    let bill = answer.unwrap_or(NOTHING);
    answers.put_number(u64::from(number));
    answers.put_number(bill.units);
    answers.put_decimal(bill.pence);
    answers.put_byte(b'\n');
}
