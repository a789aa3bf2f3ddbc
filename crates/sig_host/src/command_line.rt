//! The command line: which arguments the command takes, and the settings that they give.

ghost use Rattle.std.specs.Prelude.{◌≡◌, ◌≢◌, ◌⊎◌, map, IfOk, IfSome, Ok, Err, string_bytes};
ghost use Rattle.clap.specs.Words.{app_of, found_of, kind_of, rows_of, with_rule};
ghost use Rattle.sig_host.specs.Words.{
  command as the_command,
  option_named,
  settings_by,
  IsInRange,
  IsWordsAnswer,
  plain_settings,
};

use crate::option_values::{calls_or_none, number_or, policy_or_auto};
use crate::settings::{MOST_QUOTA, MOST_WORKERS, Settings};
use crate::words_error::WordsError;
use clap::error::ErrorKind;
use clap::{Arg, ArgAction, ArgMatches, Command, Error};
use std::alloc::{AllocError, Global};

/// The command with one option more, of this long name, which has one value.
fn with_option<'a>(
    alloc: Global,
    command: Command<'a>,
    name: &'a str,
) -> Result<Command<'a>, AllocError>
    ensures { IfOk result (λ c. app_of c ≡ with_rule (app_of command.entry) (option_named name.entry.now)) }
{
    command.arg(Arg::new(alloc, name).long(name).action(ArgAction::Set))
}

/// The command: the options `--workers`, `--quota`, `--buffers` and `--generate`, each of which has
/// one value, and nothing else.
fn command<'a>(alloc: Global) -> Result<Command<'a>, AllocError>
    ensures { IfOk result (λ c. app_of c ≡ the_command) }
{
    let bare = Command::new(alloc, "sigrun")
        .no_binary_name(true)
        .disable_help_flag(true);
    let command = with_option(alloc, bare, "workers")?;
    let command = with_option(alloc, command, "quota")?;
    let command = with_option(alloc, command, "buffers")?;
    with_option(alloc, command, "generate")
}

/// The settings that the values of the options give. `None` where a value is out of its range.
fn settings_of(matches: &ArgMatches) -> Option<Settings>
    ensures settings { result ≡ settings_by (rows_of (found_of matches.now)) }
    ensures range { IfSome result IsInRange }
{
    let workers = number_or(1, MOST_WORKERS, matches.get_str("workers"))?;
    let quota = number_or(64, MOST_QUOTA, matches.get_str("quota"))?;
    let policy = policy_or_auto(matches.get_str("buffers"))?;
    let generate = calls_or_none(matches.get_str("generate"))?;
    Some(Settings {
        workers,
        quota,
        policy,
        generate,
    })
}

/// What an error of the command tells.
fn refusal(error: &Error) -> WordsError
    ensures memory { kind_of error.now ≡ ErrorKind.OutOfMemory → result ≡ WordsError.Memory }
    ensures usage { kind_of error.now ≢ ErrorKind.OutOfMemory → result ≡ WordsError.Usage }
{
    match error.kind() {
        ErrorKind::OutOfMemory => WordsError::Memory,
        _ => WordsError::Usage,
    }
}

/// Reads the arguments, the program's own name not among them, as those of a command of clap with
/// these options, each of which has one value:
///
/// - `--workers`: a number from 1 to [`MOST_WORKERS`], 1 without it.
/// - `--quota`: a number from 1 to [`MOST_QUOTA`], 64 without it.
/// - `--buffers`: `never`, `always`, `auto`, or `churn:N` with a number N from 1 to
///   [`MOST_CHURN`](crate::MOST_CHURN); `auto` without it.
/// - `--generate`: a number from 1 to [`MOST_CALLS`](sig_script::MOST_CALLS); without it no work is
///   generated.
///
/// A number is one decimal digit or more. On arguments that clap takes the settings are the values in
/// its matches.
///
/// - [`WordsError::Usage`]: clap doesn't take the arguments, or a value isn't in its range. It never
///   comes where each option stands at most once, as two arguments, with a value in its range.
/// - [`WordsError::Memory`]: there was no memory.
pub fn words(alloc: Global, list: &[String]) -> Result<Settings, WordsError>
    ensures range { IfOk result IsInRange }
    ensures answer { IsWordsAnswer (map string_bytes list.now) result }
    ensures plain { IfSome (plain_settings (map string_bytes list.now)) (λ s. (result ≡ Ok s) ⊎ (result ≡ Err WordsError.Memory)) }
{
    let command = command(alloc)?;
    match command.try_get_matches_from(list) {
        Ok(matches) => match settings_of(&matches) {
            Some(settings) => Ok(settings),
            None => Err(WordsError::Usage),
        },
        Err(error) => Err(refusal(&error)),
    }
}
