// The call control: what the AT processor asks of the session, and what the session lets it hear.
#![tactic(auto)]

ghost use Rattle.std.specs.Prelude.{◌≡◌, drop};
ghost use Rattle.command.specs.Line as command_line;
ghost use Rattle.session.specs.Session.{dialling};
ghost use Rattle.control.specs.Control.{heard_in, controlled};

use at::Control;
use command::Line;
use session::{Session, SessionState};

// The carrier flag, which is read as false in Idle.
pub fn heard_in(state: SessionState, carrier: bool) -> bool
    ensures { result ≡ heard_in state carrier }
{
    carrier && !matches!(state, SessionState::Idle)
}

// Dials the line's bytes after ATDT; a line of fewer bytes has none.
fn dial(line: Line, rate: u32) -> Session
    ensures { result ≡ dialling (drop 4 (command_line.typed line)) rate }
{
    Session::dial(line.typed().get(4..).unwrap_or(&[]), rate)
}

// Does what the AT processor asks of the call control, if it asks for anything.
#[tactic(auto, unfolding(crate::specs::Control::controlled))]
pub fn apply(control: Option<Control>, session: Session, line: Line, rate: u32) -> Session
    ensures { result ≡ controlled control session (drop 4 (command_line.typed line)) rate }
{
    match control {
        None => session,
        Some(Control::Dial) => dial(line, rate),
        Some(Control::Answer) => Session::answer(),
        Some(Control::Hangup) => Session::hangup(),
    }
}
