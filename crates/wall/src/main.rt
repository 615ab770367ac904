// 01's program: reads lines R, T, W, F and D, and prints for each what the set then shows.
#![tactic(auto)]

use console::stream;
use panel::Form;

fn main(rt: HostRuntime) {
    let errors = rt.stderr();
    if stream::refuses_words(&rt, &errors, "wall", "lines") {
        return;
    }
    panel::run(&mut rt.stdin(), &rt, &errors, Form::Wall);
}
