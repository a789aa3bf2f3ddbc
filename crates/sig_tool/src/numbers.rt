//! Numbers of the arguments, and the events that they name.

ghost use Rattle.std.specs.Prelude.{◌≡◌};
ghost use Rattle.sig_tool.specs.Numbers.{event_named, narrow, number_in, pid_in};

use sig_edge::are_digits;
use sig_order::At;

/// The number that the text spells in one decimal digit or more, where 64 bits hold it. `None` exactly
/// where it spells none.
pub fn number_in(text: &str) -> Option<u64>
    ensures { result ≡ number_in text.now }
{
    if !are_digits(text) {
        return None;
    }
    text.parse::<u64>().ok()
}

/// The number, where 32 bits hold it.
fn narrow(number: u64) -> Option<u32>
    ensures { result ≡ narrow number }
{
    if number < 1 << 32 {
        Some(number as u32)
    } else {
        None
    }
}

/// The pid that the text spells.
fn pid_in(text: &str) -> Option<u32>
    ensures { result ≡ pid_in text.now }
{
    narrow(number_in(text)?)
}

/// The event that these texts name, its process and its number. `None` exactly where one of them spells
/// no number, or one that 32 bits don't hold for the process or 64 for the event.
pub fn event_named(pid: &str, event: &str) -> Option<At>
    ensures { result ≡ event_named pid.now event.now }
{
    let pid = pid_in(pid)?;
    let event = number_in(event)?;
    Some(At { pid, event })
}
