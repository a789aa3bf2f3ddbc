ghost use Rattle.std.specs.Prelude.{◌≡◌, map, string_bytes};
ghost use Rattle.sig_tool.specs.Commands.{before_of, command_of, named};

use crate::numbers::event_named;
use sig_order::At;

/// What the arguments ask for.
#[derive(Clone, Copy, PartialEq, Eq)]
pub enum Command {
    /// Whether the record is that of a settled run of the script.
    Check,
    /// The same; and the record again, as it is gathered from processes that made its choices.
    Replay,
    /// The same; and the links between the processes that wait at its end.
    Links,
    /// The same; and whether the first event of the record happened before the second.
    Before { first: At, second: At },
    /// The script that a text of calls spells. No record is read.
    Expand,
}

impl Command {
    /// The command of this name.
    fn named(word: &str) -> Option<Command>
        ensures { result ≡ named word.now }
    {
        if word == "check" {
            Some(Command::Check)
        } else if word == "replay" {
            Some(Command::Replay)
        } else if word == "links" {
            Some(Command::Links)
        } else if word == "expand" {
            Some(Command::Expand)
        } else {
            None
        }
    }

    /// The command `before`, of two events, where this word is its name.
    fn before(word: &str, first: Option<At>, second: Option<At>) -> Option<Command>
        ensures { result ≡ before_of word.now first second }
    {
        if word != "before" {
            return None;
        }
        let first = first?;
        let second = second?;
        Some(Command::Before { first, second })
    }

    /// The command that these arguments are. `None` exactly where they are none.
    pub(crate) fn of(words: &[String]) -> Option<Command>
        ensures { result ≡ command_of (map string_bytes words.now) }
    {
        match words {
            [word] => Command::named(word.as_str()),
            [word, p, i, q, j] => Command::before(
                word.as_str(),
                event_named(p.as_str(), i.as_str()),
                event_named(q.as_str(), j.as_str()),
            ),
            _ => None,
        }
    }
}
