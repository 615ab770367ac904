// What `tap --ext` keeps: a string, and the key that the last fill answered.
ghost use Rattle.std.specs.Prelude.{◌≡◌};
ghost use Rattle.panel.specs.Wall.{kept_after, lit_after};

use crate::shown::Second;
use console::lines::Call;
use keys::Key;
use text::Page;

// The string that is kept after a line. A byte more is kept where there is a place for it.
pub fn after(call: Call, string: &mut Page<300>)
    ensures { string.new.text ≡ kept_after string.old.room string.old.text call }
{
    match call {
        Call::Kept(byte) => string.put_byte(byte),
        Call::String { .. } | Call::Bits(_) | Call::Frame => string.clear(),
        _ => {}
    }
}

// The key that is lit after a call: a fill answers one, and a set made anew has none yet.
pub fn lit(was: Option<Key>, second: Second) -> Option<Key>
    ensures { result ≡ lit_after was second }
{
    match second {
        Second::Filled { key, .. } => key,
        Second::Made => None,
        _ => was,
    }
}
