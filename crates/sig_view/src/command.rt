ghost use Rattle.std.specs.Prelude.{◌≡◌, [], ◌∷◌, map, string_bytes};
ghost use Rattle.sig_view.specs.Commands.{
  allowed,
  chart_of,
  concurrent_of,
  option_of,
  outcomes_of,
  record_of,
  states_in,
  states_option,
  IsAsked,
};

use sig_chart::Window;
use sig_order::At;
use sig_tool::{event_named, number_in};

/// The lowest stamp of a window without another.
const LOWEST: u64 = 0;

/// The highest stamp of a window without another.
const HIGHEST: u64 = u64::MAX;

/// How many states a search without another number may visit.
const STATES: u64 = 200000;

/// The most states that a search may visit.
const MOST_STATES: u64 = 10000000;

/// What the arguments ask for.
#[derive(Clone, Copy, PartialEq, Eq)]
pub enum Command {
    /// The chart of the events whose stamps lie in the window.
    Chart { window: Window },
    /// The events of other processes that neither happened before this one nor after it.
    Concurrent { event: At },
    /// The outcomes of a script, of whose states a search may visit so many.
    Outcomes { states: u64 },
    /// The record of a run that ends in the outcome of this number, counted from 1, of such a list as
    /// `Outcomes` writes; that it is the same one no clause says.
    OutcomeRecord { states: u64, number: u64 },
}

/// The number of states, where a search may visit so many.
fn allowed(states: u64) -> Option<u64>
    ensures { result ≡ allowed states }
{
    if 0 < states && states <= MOST_STATES {
        Some(states)
    } else {
        None
    }
}

/// The number of states that the text spells, where a search may visit so many.
fn states_in(text: &str) -> Option<u64>
    ensures { result ≡ states_in text.now }
{
    allowed(number_in(text)?)
}

impl Command {
    /// The command `chart`, from one stamp to another, where this word is its name.
    fn chart(word: &str, from: Option<u64>, to: Option<u64>) -> Option<Command>
        ensures { result ≡ chart_of word.now from to }
    {
        if word != "chart" {
            return None;
        }
        let window = Window {
            from: from?,
            to: to?,
        };
        Some(Command::Chart { window })
    }

    /// The command `concurrent`, of an event, where this word is its name.
    fn concurrent(word: &str, event: Option<At>) -> Option<Command>
        ensures { result ≡ concurrent_of word.now event }
    {
        if word != "concurrent" {
            return None;
        }
        Some(Command::Concurrent { event: event? })
    }

    /// The command `outcomes`, of so many states, where this word is its name.
    fn outcomes(word: &str, states: Option<u64>) -> Option<Command>
        ensures { result ≡ outcomes_of word.now states }
    {
        if word != "outcomes" {
            return None;
        }
        Some(Command::Outcomes { states: states? })
    }

    /// The command `outcomes` with the number of one, where this word is its name.
    fn outcome_record(word: &str, states: Option<u64>, number: Option<u64>) -> Option<Command>
        ensures { result ≡ record_of word.now states number }
    {
        if word != "outcomes" {
            return None;
        }
        let states = states?;
        let number = number?;
        Some(Command::OutcomeRecord { states, number })
    }

    /// The number behind an option, where this word is its name.
    fn option(name: &str, word: &str, value: &str) -> Option<u64>
        ensures { result ≡ option_of name.now word.now value.now }
    {
        if word == name { number_in(value) } else { None }
    }

    /// The number of states behind the option `--states`, where this word is its name.
    fn states_option(word: &str, value: &str) -> Option<u64>
        ensures { result ≡ states_option word.now value.now }
    {
        if word == "--states" {
            states_in(value)
        } else {
            None
        }
    }

    /// The command of one word: `outcomes` or `chart`.
    #[tactic(auto, using(crate::proofs::WordLemmas::asked_by_one))]
    fn of_one(word: &str) -> Option<Command>
        ensures { IsAsked (word.now ∷ []) result }
    {
        if word == "outcomes" {
            Some(Command::Outcomes { states: STATES })
        } else {
            Command::chart(word, Some(LOWEST), Some(HIGHEST))
        }
    }

    /// The command of three words: `chart` or `outcomes` with one option, or `concurrent`.
    #[tactic(auto, using(crate::proofs::WordLemmas::asked_by_three))]
    fn of_three(word: &str, second: &str, third: &str) -> Option<Command>
        ensures { IsAsked (word.now ∷ second.now ∷ third.now ∷ []) result }
    {
        if second == "--from" {
            Command::chart(word, number_in(third), Some(HIGHEST))
        } else if second == "--to" {
            Command::chart(word, Some(LOWEST), number_in(third))
        } else if second == "--states" {
            Command::outcomes(word, states_in(third))
        } else if second == "--record" {
            Command::outcome_record(word, Some(STATES), number_in(third))
        } else {
            Command::concurrent(word, event_named(second, third))
        }
    }

    /// The command of five words: `outcomes` with its two options, or `chart` with its two.
    #[tactic(auto, using(crate::proofs::WordLemmas::asked_by_five))]
    fn of_five(word: &str, first: &str, one: &str, second: &str, other: &str) -> Option<Command>
        ensures { IsAsked (word.now ∷ first.now ∷ one.now ∷ second.now ∷ other.now ∷ []) result }
    {
        if first == "--states" {
            let number = Command::option("--record", second, other);
            Command::outcome_record(word, states_in(one), number)
        } else if first == "--record" {
            let states = Command::states_option(second, other);
            Command::outcome_record(word, states, number_in(one))
        } else {
            let from = Command::option("--from", first, one);
            Command::chart(word, from, Command::option("--to", second, other))
        }
    }

    /// The command that these arguments are. `None` exactly where they are none.
    pub(crate) fn of(words: &[String]) -> Option<Command>
        ensures { IsAsked (map string_bytes words.now) result }
    {
        match words {
            [word] => Command::of_one(word.as_str()),
            [word, second, third] => {
                Command::of_three(word.as_str(), second.as_str(), third.as_str())
            }
            [word, first, one, second, other] => Command::of_five(
                word.as_str(),
                first.as_str(),
                one.as_str(),
                second.as_str(),
                other.as_str(),
            ),
            _ => None,
        }
    }
}
