// The calls that no other program makes: the writer of replies, the digits' reader, the length of a call
// before the call, the lent oscillator, and every call on sets that are not sound; the cue, strings, and
// what is sent.
// Buffers are dots, or samples of 1.23, before each call, and are printed whole after it.
#![tactic(auto)]

mod lent;
mod plans;
mod sets;
mod tried;
mod unsound;

fn main(rt: HostRuntime) {
    replies(&rt);
    cues(&rt);
    declined(&rt);
    strings(&rt);
    senders(&rt);
    plans::plans(&rt);
    lent::oscillators(&rt);
    unsound::processors(&rt);
    unsound::sessions(&rt);
    unsound::oscillators(&rt);
    unsound::symbols(&rt);
    unsound::counts(&rt);
    unsound::most_bits(&rt);
    unsound::ends(&rt);
    unsound::senders(&rt);
}

// Each code in a buffer with room for all, then one byte short.
fn replies(output: &impl Print) {
    tried::reply(output, 0, 50, 28);
    tried::reply(output, 1, 50, 28);
    tried::reply(output, 1, 50, 1);
    tried::reply(output, 2, 50, 28);
    tried::reply(output, 2, 50, 10);
    tried::reply(output, 3, 50, 28);
    tried::reply(output, 3, 50, 9);
    tried::reply(output, 4, 50, 28);
    tried::reply(output, 4, 50, 4);
    tried::reply(output, 5, 50, 26);
    tried::reply(output, 5, 50, 25);
    tried::reply(output, 6, 50, 28);
    tried::reply(output, 6, 0, 3);
    tried::reply(output, 6, 7, 28);
    tried::reply(output, 6, 255, 28);
    tried::reply(output, 6, 255, 2);
    tried::reply(output, 7, 50, 28);
    tried::reply(output, 8, 50, 28);
}

fn cues(output: &impl Print) {
    let set = sets::dialled(8000);
    tried::cue(output, b"first digit", set, 0);
    tried::cue(output, b"second digit", set, 1);
    tried::cue(output, b"no third digit", set, 2);
    tried::cue(output, b"no digit in Idle", sets::fresh(8000), 0);
    tried::cue(output, b"at 192000", sets::dialled(192000), 1);
    tried::digits(output, b"dialled 12", set);
    tried::digits(output, b"fresh", sets::fresh(8000));
}

// Strings with room for two bytes, or for four; codes are in hexadecimal.
fn strings(output: &impl Print) {
    let long = [b'1'; 257];
    let set = sets::fresh(8000);
    tried::string(output, b"no string", set, b"", 0, 0);
    tried::string(output, b"string of 2", set, b"A\r", 8, 6);
    tried::string(output, b"string of 4", set, b"ATH\r", 16, 12);
    tried::string(
        output,
        b"string after three pluses",
        sets::pluses(3),
        b"+x",
        8,
        6,
    );
    tried::string(output, b"string and an outbox of 7", set, b"A\r", 7, 6);
    tried::string(output, b"string and 5 codes", set, b"A\r", 8, 5);
    tried::string(
        output,
        b"string that sets S12",
        sets::s12_line(7),
        b"5\r",
        8,
        6,
    );
    tried::string(
        output,
        b"string that asks for S12",
        sets::s12_line(5),
        b"?\r",
        8,
        6,
    );
    tried::string(output, b"string of 257", set, &long, 16, 12);
    tried::string(
        output,
        b"string of 257 for a line of 81",
        sets::line(81, false),
        &long,
        16,
        12,
    );
    tried::string(
        output,
        b"no string for a line of 81",
        sets::line(81, false),
        b"",
        0,
        0,
    );
}

// Fills in Connected, as the set is and with one byte more queued.
fn senders(output: &impl Print) {
    tried::sender(output, b"nothing waits", sets::waiting(0));
    tried::sender(output, b"one waits", sets::waiting(1));
    tried::sender(output, b"256 wait", sets::waiting(256));
    tried::sender(output, b"one waits, and no edge", sets::begun(0, false));
    tried::sender(output, b"first bit begun", sets::begun(1, true));
    tried::sender(
        output,
        b"first bit begun, and no edge",
        sets::begun(1, false),
    );
    tried::sender(output, b"last bit begun", sets::begun(10, true));
}

// The calls of sound sets that are declined.
fn declined(output: &impl Print) {
    tried::made(output, 7999);
    tried::made(output, 8000);
    tried::made(output, 192001);
    tried::typed(output, b"outbox of 3", sets::fresh(8000), b'A', 3);
    tried::typed(output, b"outbox of 4", sets::fresh(8000), b'A', 4);
    tried::typed(output, b"four pluses", sets::pluses(3), b'+', 8);
    tried::typed(output, b"line of 80", sets::line(80, false), b'1', 8);
    tried::typed(
        output,
        b"line of 80 and an outbox of 3",
        sets::line(80, false),
        b'1',
        3,
    );
    tried::typed(output, b"line that ran over", sets::line(80, true), b'1', 8);
    tried::typed(
        output,
        b"line that ran over, and CR",
        sets::line(80, true),
        b'\r',
        8,
    );
    tried::fill_long(output, sets::dialled(8000));
    tried::calls(output, b"Connected", sets::connected());
}
