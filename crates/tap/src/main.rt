// The answers of `wall`, each followed by a line of what the set rings, sends and plays. With the
// argument --ext it takes longer fills, T lines that give the outbox's length, and the lines of 02.
#![tactic(auto)]

use panel::Form;
use std::env::Env;

fn main(rt: HostRuntime) {
    let errors = rt.stderr();
    if !console::stream::has_word(&rt, 1) {
        panel::run(&mut rt.stdin(), &rt, &errors, Form::Tap);
        return;
    }
    if !console::stream::has_word(&rt, 2) && is_ext(&rt) {
        panel::run(&mut rt.stdin(), &rt, &errors, Form::Extended);
        return;
    }
    let _ = Print::write_all(&errors, b"tap: the only argument is --ext\n");
}

fn is_ext(words: &impl Env) -> bool {
    let mut word = [0u8; 8];
    match words.arg(1, &mut word) {
        Ok(count) => word[..count] == b"--ext"[..],
        Err(_) => false,
    }
}
