// Fixed texts as bytes, a writer of them, and a byte in upper case.
#![tactic(auto)]

ghost use Rattle.std.specs.Prelude.{◌≡◌, length};
ghost use Rattle.ascii.specs.Front.{put, put_length};
ghost use Rattle.ascii.specs.Upper.{upper};

// Copies `text` to the front of `out` where it fits whole, and answers its length; else 0, as 01's writer does: its callers hand
// the number on.
#[tactic(auto, unfolding(crate::specs::Front::put, crate::specs::Front::put_length))]
pub fn put_front(text: &[u8], out: &mut [u8]) -> usize
    ensures value { result ≡ put_length text.now (length out.old) }
    ensures out_after { out.new ≡ put text.now out.old }
{
    if out.len() < text.len() {
        return 0;
    }
    out[..text.len()].copy_from_slice(text);
    text.len()
}

// 01's upper case of a byte.
#[tactic(auto, unfolding(crate::specs::Upper::upper))]
pub fn uppercase(b: u8) -> u8
    ensures { result ≡ upper b }
{
    b.to_ascii_uppercase()
}
