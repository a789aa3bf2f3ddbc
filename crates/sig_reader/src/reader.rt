ghost use Rattle.std.specs.Prelude.{◌≡◌, ◌+◌, ◌<◌, ◌^◌, length, IfOk, IfSome, Ok, Some, drop, All};
ghost use Rattle.sig_reader.specs.declared.guards.TheConstants.{MOST_TESTS};
ghost use Rattle.sig_reader.specs.declared.reader.TheConstants.{MOST_BYTES};
ghost use Rattle.sig_reader.specs.ErrorTexts.{error_text};
ghost use Rattle.sig_tokens.specs.Lines.{lines_of};
ghost use Rattle.sig_tokens.specs.Tokens.{tokens_of};
ghost use Rattle.sig_reader.specs.Grammar.{
  version_of,
  version_at,
  header_of,
  walk,
  walk_twice,
  script_of_lines,
  script_of,
};
ghost use Rattle.sig_reader.specs.Drafts.{blank};
ghost use Rattle.sig_program.specs.declared.version.Version.TheVariants.{One};
ghost use Rattle.sig_reader.specs.Fitting.{IsFit};
ghost use Rattle.sig_program.specs.Scripts.{IsWithin, IsScriptWithin};
ghost use Rattle.sig_reader.specs.Reading.{IsReading, IsWalked};
ghost use Rattle.sig_reader.specs.declared.reader.ScriptError.TheVariants.{Memory};

use crate::draft::{Draft, discard, finish, take_line};
use crate::guess::guess_names;
use crate::same_names::are_its_names;
use sig_lists::Sequence;
use sig_program::{Proc, Procs, Script, Version};
use sig_terms::bytes::equal_bytes;
use sig_tokens::{
    DraftScript, FaultKind, Known, Line, ProcTable, Stop, TokenKind, check_cut, cut_line,
    first_line, spells_one, spells_two,
};
use std::alloc::{AllocError, Global};
use std::error::Error;
use std::fmt;

/// The most bytes of the text of a script.
pub const MOST_BYTES: usize = 1048576;

/// Why no script was read.
#[derive(Clone, Copy, Debug, PartialEq, Eq)]
pub enum ScriptError {
    /// The text spells no script: its first line that is refused, and why.
    Fault { line: u64, kind: FaultKind },
    /// There was no memory.
    Memory,
}

impl fmt::Display for ScriptError {
    ghost output = { λ e. Some (error_text e) };

    fn fmt<W: fmt::Write>(&self, f: &mut fmt::Formatter<W>) -> fmt::Result {
        match self {
            ScriptError::Fault { line, kind } => write!(f, "line {line}: {kind}"),
            ScriptError::Memory => f.write_str("out of memory"),
        }
    }
}

impl Error for ScriptError {}

impl From<AllocError> for ScriptError {
    ghost from_gives = { λ _ e. e ≡ Memory };

    fn from(_e: AllocError) -> ScriptError {
        ScriptError::Memory
    }
}

/// Reads the lines after the first. The number is that of the line behind them.
fn walk_lines(
    alloc: Global,
    known: &Known,
    draft: &mut Draft,
    bytes: &[u8],
) -> Result<u64, ScriptError>
    requires short { length bytes.now < 2 ^ 30 }
    requires first { draft.old ≡ blank draft.old.version }
    ensures walked { IsWalked (walk draft.old.version known.now (lines_of bytes.now)) draft.new result }
    ensures fit { IfOk result (λ n. IsFit n draft.new) }
{
    let mut tokens = Sequence::new(alloc);
    let mut n: u64 = 2;
    let mut at = 0;
    while at < bytes.len() {
        let line = first_line(&bytes[at..]);
        match take_line(alloc, known, draft, n, &mut tokens, line) {
            Ok(()) => {}
            Err(Stop::Fault(kind)) => return Err(ScriptError::Fault { line: n, kind }),
            Err(Stop::Memory) => return Err(ScriptError::Memory),
        }
        at += line.len() + 1;
        n += 1;
    }
    Ok(n)
}

/// The script of the lines after the first.
fn read_lines(
    alloc: Global,
    version: Version,
    known: &Known,
    bytes: &[u8],
) -> Result<DraftScript, ScriptError>
    requires short { length bytes.now < 2 ^ 30 }
    ensures { IsReading (walk version known.now (lines_of bytes.now)) result }
{
    let mut draft = Draft::new(alloc, version);
    match walk_lines(alloc, known, &mut draft, bytes) {
        Ok(n) => finish(draft, n),
        Err(e) => {
            discard(draft);
            Err(e)
        }
    }
}

/// The version that a token tells.
fn version_of(kind: TokenKind, word: &[u8]) -> Option<Version>
    ensures { result ≡ version_of kind word.now }
{
    match kind {
        TokenKind::Integer if spells_one(word) => Some(Version::One),
        TokenKind::Integer if spells_two(word) => Some(Version::Two),
        _ => None,
    }
}

/// The version that the line tells, where it is the header.
fn read_version(line: &Line) -> Option<Version>
    ensures { result ≡ version_at line.now.text line.now.tokens }
{
    let (word, rest) = line.split_first()?;
    let (number, end) = rest.split_first()?;
    match end.split_first() {
        None if equal_bytes(line.word(word), b"sigscript") => {
            version_of(number.kind, rest.word(number))
        }
        _ => None,
    }
}

/// The version that the first line of a script tells. `None` exactly where the line isn't the header.
/// The only error is want of memory. (The language of scripts is this project's own.)
pub fn read_header(alloc: Global, text: &[u8]) -> Result<Option<Version>, AllocError>
    ensures { IfOk result (λ version. version ≡ header_of (tokens_of One text.now) text.now) }
{
    let cut = cut_line(alloc, text, Version::One)?;
    match check_cut(text, cut) {
        Ok(tokens) => Ok(read_version(&Line::new(text, tokens.as_slice()))),
        Err(_) => Ok(None),
    }
}

/// What stands behind the first line.
fn behind_line<'a>(bytes: &'a [u8], line: &[u8]) -> &'a [u8]
    ensures { result.now ≡ drop (length line.now + 1) bytes.now }
{
    if line.len() < bytes.len() {
        &bytes[line.len() + 1..]
    } else {
        &[]
    }
}

/// The processes, whose bounds are known.
fn seal_procs(alloc: Global, drafts: ProcTable) -> Result<Procs, AllocError>
    requires { All IsWithin drafts }
    ensures { IfOk result (λ procs. procs ≡ drafts) }
{
    let mut procs = Vec::new(alloc);
    for draft in drafts.into_vec() {
        procs.push(Proc {
            name: draft.name,
            queue_data: draft.queue_data,
            labels: draft.labels.into_labels(),
            instrs: draft.instrs,
        })?;
    }
    Ok(Sequence::from_vec(procs))
}

/// The script, whose bounds are known.
fn seal(alloc: Global, draft: DraftScript) -> Result<Script, AllocError>
    requires within { All IsWithin draft.procs }
    requires sound { IsScriptWithin draft }
    ensures { IfOk result (λ script. script ≡ draft) }
{
    let procs = seal_procs(alloc, draft.procs)?;
    Ok(Script {
        version: draft.version,
        turns: draft.turns,
        procs,
    })
}

/// Both walks over the lines after the first.
fn read_twice(alloc: Global, version: Version, bytes: &[u8]) -> Result<Script, ScriptError>
    requires { length bytes.now < 2 ^ 30 }
    ensures { IsReading (walk_twice version (lines_of bytes.now)) result }
{
    let first = read_lines(alloc, version, &Known::Any, bytes)?;
    let second = read_lines(alloc, version, &Known::Among(first), bytes)?;
    Ok(seal(alloc, second)?)
}

/// The script of one walk, where the names that it was given are those that it has found.
fn read_once(
    alloc: Global,
    version: Version,
    known: &Known,
    bytes: &[u8],
) -> Result<Option<Script>, AllocError>
    requires short { length bytes.now < 2 ^ 30 }
    ensures { IfOk result (λ script. IfSome script (λ s. walk_twice version (lines_of bytes.now) ≡ Ok s)) }
{
    match read_lines(alloc, version, known, bytes) {
        Ok(script) => {
            if are_its_names(known, &script) {
                Ok(Some(seal(alloc, script)?))
            } else {
                Ok(None)
            }
        }
        Err(ScriptError::Fault { .. }) => Ok(None),
        Err(ScriptError::Memory) => Err(AllocError),
    }
}

/// The script by one walk where these are its names, else by two.
fn read_named(
    alloc: Global,
    version: Version,
    names: &Known,
    bytes: &[u8],
) -> Result<Script, ScriptError>
    requires short { length bytes.now < 2 ^ 30 }
    ensures { IsReading (walk_twice version (lines_of bytes.now)) result }
{
    match read_once(alloc, version, names, bytes)? {
        Some(script) => Ok(script),
        None => read_twice(alloc, version, bytes),
    }
}

/// The script, whose names were guessed or not.
fn read_guessed(
    alloc: Global,
    version: Version,
    names: &Known,
    bytes: &[u8],
) -> Result<Script, ScriptError>
    requires short { length bytes.now < 2 ^ 30 }
    ensures { IsReading (walk_twice version (lines_of bytes.now)) result }
{
    match names {
        Known::Any => read_twice(alloc, version, bytes),
        Known::Among(_) => read_named(alloc, version, names, bytes),
    }
}

/// The script of the lines after the first. Most are read by one walk, since their names are
/// guessed before; a text whose names were guessed wrong, or with a line that is refused, is walked
/// twice.
fn read_body(alloc: Global, version: Version, bytes: &[u8]) -> Result<Script, ScriptError>
    requires { length bytes.now < 2 ^ 30 }
    ensures { IsReading (walk_twice version (lines_of bytes.now)) result }
{
    let names = guess_names(alloc, version, bytes)?;
    read_guessed(alloc, version, &names, bytes)
}

/// The script of the text, or the first line that is refused.
fn read_text(alloc: Global, bytes: &[u8]) -> Result<Script, ScriptError>
    requires { length bytes.now < 2 ^ 30 }
    ensures { IsReading (script_of_lines (lines_of bytes.now)) result }
{
    let header = ScriptError::Fault {
        line: 1,
        kind: FaultKind::Header,
    };
    if bytes.is_empty() {
        return Err(header);
    }
    let first = first_line(bytes);
    match read_header(alloc, first)? {
        Some(version) => read_body(alloc, version, behind_line(bytes, first)),
        None => Err(header),
    }
}

/// Reads the text of a script: the script that it spells. `Fault` exactly where it spells none,
/// with the line and the kind of its first refusal; lines count from 1, and a text of more than
/// [`MOST_BYTES`] bytes is refused at line 0. `Memory` only where memory is refused. (The language
/// of scripts is this project's own.)
#[tactic(auto, unfolding(crate::specs::Grammar::script_of))]
pub fn read_script(alloc: Global, bytes: &[u8]) -> Result<Script, ScriptError>
    ensures { IsReading (script_of bytes.now) result }
{
    if bytes.len() > MOST_BYTES {
        return Err(ScriptError::Fault {
            line: 0,
            kind: FaultKind::TooLong,
        });
    }
    read_text(alloc, bytes)
}

/// The limits in numbers: [`MOST_BYTES`] is 1,048,576, and [`MOST_TESTS`](crate::MOST_TESTS) is 64.
pub fn the_limits_of_scripts()
    ensures bytes { MOST_BYTES ≡ 1048576 }
    ensures tests { MOST_TESTS ≡ 64 }
{}
