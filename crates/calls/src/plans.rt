// The length of a call before the call: its refusal, the count of each stage, of 0 and of 10, and T.
use crate::tried;

pub fn plans(output: &impl Print) {
    one(output, b"", 8000);
    one(output, b"12", 8000);
    one(output, b"123", 8000);
    one(output, b"5551234", 48000);
    one(output, b"(ab) cd-ef", 44100);
    one(output, &[b'7'; 76], 192000);
    one(output, &[b'-'; 76], 192000);
    one(output, b"1", 7999);
    one(output, b"1", 192001);
    one(output, &[b'7'; 77], 192000);
    one(output, &[b'-'; 77], 8000);
    one(output, &[b'7'; 77], 7999);
}

fn one(output: &impl Print, digits: &[u8], rate: u32) {
    let mut page = tried::Entry::new();
    let refusal = plan::plan_refusal(digits, rate);
    tried::put_number(&mut page, b"plan of ", digits.len() as u64);
    tried::put_number(&mut page, b" at ", u64::from(rate));
    tried::put_number(
        &mut page,
        b" refusal ",
        u64::from(refusal::answer_number(&refusal)),
    );
    page.put(b" stages");
    for stage in 0..=10 {
        tried::put_number(
            &mut page,
            b" ",
            u64::from(plan::stage_samples(digits, rate, stage)),
        );
    }
    tried::put_number(
        &mut page,
        b" T ",
        u64::from(plan::total_samples(digits, rate)),
    );
    tried::end(output, &mut page);
}
