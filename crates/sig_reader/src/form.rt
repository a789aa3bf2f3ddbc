ghost use Rattle.std.specs.Prelude.{◌≡◌, ◌∷◌, [], true, IfOk};
ghost use Rattle.sig_terms.specs.Words.{is_token};
ghost use Rattle.sig_tokens.specs.Faults.{Gives};
ghost use Rattle.sig_tokens.specs.Tokens.{is_token_in_range};
ghost use Rattle.sig_program.specs.Instructions.{Operand, operands_of};
ghost use Rattle.sig_reader.specs.Forms.{
  may_stand,
  ends,
  target_of,
  arrow_of,
  count_from,
  turns_of,
  switch_of,
  mode_of,
  flag_of,
  all_said,
  whole_name,
  queue_data_of,
  queue_data_at,
  marked_by,
  using_at,
  marker_of,
  behind_pattern,
  on_of,
  instr_of,
  form_of,
  form_behind,
  said_by,
  said,
};

use crate::draft::{Draft, Section};
use crate::guards::take_guard;
use crate::keyword::{Keyword, read_keyword};
use sig_kinds::{AliasMode, QueueData};
use sig_patterns::{Clause, Expr, Guard, Var};
use sig_program::{After, Instr, Verb};
use sig_terms::Name;
use sig_terms::bytes::equal_bytes;
use sig_tokens::{
    FaultKind, Known, Line, Sign, Stop, TokenKind, Tokens, name_of, read_count, read_tokens,
    take_phrase, take_target, take_variable, take_word,
};
use std::alloc::Global;
use std::mem::drop;

/// What a line says.
#[derive(Drop)]
pub enum Form {
    /// How many instructions each process may execute.
    Turns(u64),
    /// A process begins.
    Process(Name),
    /// Where the process keeps its messages.
    QueueData(QueueData),
    /// The place of the next instruction has a name.
    Label(Name),
    /// An instruction that is no receive.
    Do(Instr),
    /// A receive begins, with the variable of its marker where it has one.
    Receive { using: Option<Var> },
    /// A clause of a receive.
    On(Clause),
    /// What a receive does that finds no message.
    After(After),
    /// A receive ends.
    End,
}

/// The value, where no token is left behind what said it.
fn alone<T: Drop>(value: T, rest: &Line) -> Result<T, Stop>
    ensures { Gives (λ x. x) result (ends value rest.now.tokens) }
{
    match rest.split_first() {
        None => Ok(value),
        Some(_) => {
            drop(value);
            Err(Stop::Fault(FaultKind::Syntax))
        }
    }
}

/// The bytes of a name, and nothing behind it.
fn whole_word<'l>(line: &Line<'l>) -> Result<&'l [u8], Stop>
    ensures word { Gives (λ w. w.now) result (whole_name line.now.text line.now.tokens) }
    ensures token { IfOk result (λ w. is_token w.now ≡ true) }
{
    let (word, rest) = take_word(line)?;
    match rest.split_first() {
        None => Ok(word),
        Some(_) => Err(Stop::Fault(FaultKind::Syntax)),
    }
}

/// A label of the process with this place among the processes, and nothing behind it.
fn some_target(known: &Known, here: usize, line: &Line) -> Result<Option<u32>, Stop>
    ensures { Gives (λ t. t) result (target_of known.now here line.now.text line.now.tokens) }
{
    let (target, rest) = take_target(known, here, line)?;
    alone(Some(target), &rest)
}

/// Nothing, or `->` and a label of the process with this place among the processes.
fn take_arrow(known: &Known, here: usize, line: &Line) -> Result<Option<u32>, Stop>
    ensures { Gives (λ t. t) result (arrow_of known.now here line.now.text line.now.tokens) }
{
    match line.split_first() {
        None => Ok(None),
        Some((token, rest)) => {
            if token.kind.is_sign(Sign::Arrow) {
                some_target(known, here, &rest)
            } else {
                Err(Stop::Fault(FaultKind::Syntax))
            }
        }
    }
}

/// The number of an integer token that isn't below 0.
fn count_from(kind: TokenKind, word: &[u8]) -> Result<u64, Stop>
    requires { is_token_in_range word.now kind ≡ true }
    ensures { Gives (λ n. n) result (count_from kind word.now) }
{
    match kind {
        TokenKind::Integer => match read_count(word) {
            Some(count) => Ok(count),
            None => Err(Stop::Fault(FaultKind::Syntax)),
        },
        _ => Err(Stop::Fault(FaultKind::Syntax)),
    }
}

fn read_turns(line: &Line) -> Result<Form, Stop>
    ensures { Gives (λ f. f) result (turns_of line.now.text line.now.tokens) }
{
    match line.split_first() {
        None => Err(Stop::Fault(FaultKind::Syntax)),
        Some((token, rest)) => {
            let turns = count_from(token.kind, line.word(token))?;
            alone(Form::Turns(turns), &rest)
        }
    }
}

/// An expression, and nothing behind it.
fn one_expr(alloc: Global, known: &Known, line: &Line) -> Result<Expr, Stop>
    ensures { Gives (λ e. (e, tt)) result (all_said known.now 0 line.now.text (Operand.an_expr ∷ []) line.now.tokens) }
{
    let (value, rest) = take_phrase(alloc, known, line)?;
    alone(value, &rest)
}

/// What stands behind `set`: the variable, and the expression.
#[tactic(auto, unfolding(crate::specs::Forms::instr_of))]
fn read_set(alloc: Global, known: &Known, line: &Line) -> Result<Instr, Stop>
    ensures { Gives (λ i. i) result (instr_of known.now 0 Verb.Set line.now.text line.now.tokens) }
{
    let (var, rest) = take_variable(alloc, line)?;
    let value = one_expr(alloc, known, &rest)?;
    Ok(Instr::Set { var, value })
}

/// Whether the word is `on`. A word that isn't `off` either is refused.
fn read_switch(word: &[u8]) -> Result<bool, Stop>
    ensures { Gives (λ on. on) result (switch_of word.now) }
{
    if equal_bytes(word, b"on") {
        Ok(true)
    } else if equal_bytes(word, b"off") {
        Ok(false)
    } else {
        Err(Stop::Fault(FaultKind::Syntax))
    }
}

/// The mode of a monitor's alias.
fn read_mode(word: &[u8]) -> Result<AliasMode, Stop>
    ensures { Gives Some result (mode_of word.now) }
{
    if equal_bytes(word, b"explicit_unalias") {
        Ok(AliasMode::Explicit)
    } else if equal_bytes(word, b"demonitor") {
        Ok(AliasMode::Demonitor)
    } else if equal_bytes(word, b"reply_demonitor") {
        Ok(AliasMode::ReplyDemonitor)
    } else {
        Err(Stop::Fault(FaultKind::Syntax))
    }
}

/// Nothing, or the mode of a monitor's alias and nothing behind it.
fn one_mode(line: &Line) -> Result<Option<AliasMode>, Stop>
    ensures { Gives (λ mode. (mode, tt)) result (all_said Known.Any 0 line.now.text (Operand.a_mode ∷ []) line.now.tokens) }
{
    match line.split_first() {
        None => Ok(None),
        Some(_) => {
            let (word, rest) = take_word(line)?;
            let mode = read_mode(word)?;
            alone(Some(mode), &rest)
        }
    }
}

/// The flag. Another word is refused.
fn read_flag(flag: &[u8], word: &[u8]) -> Result<bool, Stop>
    ensures { Gives (λ on. on) result (flag_of flag.now word.now) }
{
    if equal_bytes(word, flag) {
        Ok(true)
    } else {
        Err(Stop::Fault(FaultKind::Syntax))
    }
}

/// Whether the flag stands there, with nothing behind it; nothing may stand there too.
fn one_flag(flag: &[u8], line: &Line) -> Result<bool, Stop>
    ensures { Gives (λ on. (on, tt)) result (all_said Known.Any 0 line.now.text (Operand.a_flag flag.now ∷ []) line.now.tokens) }
{
    match line.split_first() {
        None => Ok(false),
        Some(_) => {
            let word = whole_word(line)?;
            read_flag(flag, word)
        }
    }
}

/// What stands behind `goto`: a label of the process with this place among the processes.
#[tactic(auto, unfolding(crate::specs::Forms::instr_of))]
fn read_goto(known: &Known, here: usize, line: &Line) -> Result<Instr, Stop>
    ensures { Gives (λ i. i) result (instr_of known.now here Verb.Goto line.now.text line.now.tokens) }
{
    let (label, rest) = take_target(known, here, line)?;
    alone(Instr::Goto { label }, &rest)
}

/// What stands behind `monitor`: the variable, the process, and the mode of the alias.
#[tactic(auto, unfolding(crate::specs::Forms::instr_of))]
fn read_monitor(alloc: Global, known: &Known, line: &Line) -> Result<Instr, Stop>
    ensures { Gives (λ i. i) result (instr_of known.now 0 Verb.Monitor line.now.text line.now.tokens) }
{
    let (var, rest) = take_variable(alloc, line)?;
    let (target, rest) = take_phrase(alloc, known, &rest)?;
    match one_mode(&rest) {
        Ok(mode) => Ok(Instr::Monitor { var, target, mode }),
        Err(stop) => {
            drop(target);
            Err(stop)
        }
    }
}

/// What stands behind `demonitor`: the reference, and whether `flush` does.
#[tactic(auto, unfolding(crate::specs::Forms::instr_of))]
fn read_demonitor(alloc: Global, known: &Known, line: &Line) -> Result<Instr, Stop>
    ensures { Gives (λ i. i) result (instr_of known.now 0 Verb.Demonitor line.now.text line.now.tokens) }
{
    let (reference, rest) = take_phrase(alloc, known, line)?;
    match one_flag(b"flush", &rest) {
        Ok(flush) => Ok(Instr::Demonitor { reference, flush }),
        Err(stop) => {
            drop(reference);
            Err(stop)
        }
    }
}

/// What stands behind `alias`: the variable, and whether `reply` does.
#[tactic(auto, unfolding(crate::specs::Forms::instr_of))]
fn read_alias(alloc: Global, line: &Line) -> Result<Instr, Stop>
    ensures { Gives (λ i. i) result (instr_of Known.Any 0 Verb.Alias line.now.text line.now.tokens) }
{
    let (var, rest) = take_variable(alloc, line)?;
    let reply = one_flag(b"reply", &rest)?;
    Ok(Instr::Alias { var, reply })
}

fn read_name(alloc: Global, line: &Line) -> Result<Name, Stop>
    ensures { Gives (λ n. n) result (whole_name line.now.text line.now.tokens) }
{
    let word = whole_word(line)?;
    Ok(name_of(alloc, word)?)
}

/// Where messages are kept, by this word.
fn queue_data_of(word: &[u8]) -> Result<QueueData, Stop>
    ensures { Gives (λ q. q) result (queue_data_of word.now) }
{
    if equal_bytes(word, b"on_heap") {
        Ok(QueueData::OnHeap)
    } else if equal_bytes(word, b"off_heap") {
        Ok(QueueData::OffHeap)
    } else {
        Err(Stop::Fault(FaultKind::Syntax))
    }
}

/// Where a process keeps its messages, and nothing behind it.
fn read_queue_data(line: &Line) -> Result<QueueData, Stop>
    ensures { Gives (λ q. q) result (queue_data_at line.now.text line.now.tokens) }
{
    let word = whole_word(line)?;
    queue_data_of(word)
}

/// The variable of a receive's marker, and nothing behind it.
fn marker_variable(alloc: Global, line: &Line) -> Result<Option<Var>, Stop>
    ensures { Gives (λ v. v) result (marked_by line.now.text line.now.tokens) }
{
    let (var, rest) = take_variable(alloc, line)?;
    alone(Some(var), &rest)
}

/// `using` and a variable.
fn some_marker(alloc: Global, line: &Line) -> Result<Option<Var>, Stop>
    ensures { Gives (λ v. v) result (using_at line.now.text line.now.tokens) }
{
    let (word, rest) = take_word(line)?;
    read_flag(b"using", word)?;
    marker_variable(alloc, &rest)
}

/// Nothing, or `using` and a variable.
fn read_marker(alloc: Global, line: &Line) -> Result<Option<Var>, Stop>
    ensures { Gives (λ v. v) result (marker_of line.now.text line.now.tokens) }
{
    match line.split_first() {
        None => Ok(None),
        Some(_) => some_marker(alloc, line),
    }
}

/// What stands behind the pattern of a clause: a guard or none, and a label of the process with this
/// place among the processes or none.
fn take_clause_end(
    alloc: Global,
    known: &Known,
    here: usize,
    line: Line,
) -> Result<(Option<Guard>, Option<u32>), Stop>
    ensures { Gives (λ x. (x.0, x.1)) result (behind_pattern known.now here line.entry.text line.entry.tokens) }
{
    let (guard, rest) = take_guard(alloc, line)?;
    match take_arrow(known, here, &rest) {
        Ok(target) => Ok((guard, target)),
        Err(stop) => {
            drop(guard);
            Err(stop)
        }
    }
}

fn read_on(alloc: Global, known: &Known, here: usize, line: &Line) -> Result<Form, Stop>
    ensures { Gives (λ f. f) result (on_of known.now here line.now.text line.now.tokens) }
{
    let (pattern, rest) = take_phrase(alloc, known, line)?;
    match take_clause_end(alloc, known, here, rest) {
        Ok((guard, target)) => Ok(Form::On(Clause {
            pattern,
            guard,
            target,
        })),
        Err(stop) => {
            drop(pattern);
            Err(stop)
        }
    }
}

/// The instruction of a verb behind which one expression stands.
#[tactic(auto, unfolding(crate::specs::Forms::instr_of))]
fn read_of_expr(alloc: Global, known: &Known, verb: Verb, line: &Line) -> Result<Instr, Stop>
    requires operands { operands_of verb ≡ Operand.an_expr ∷ [] }
    ensures { Gives (λ i. i) result (instr_of known.now 0 verb line.now.text line.now.tokens) }
{
    let expr = one_expr(alloc, known, line)?;
    match verb {
        Verb::Link => Ok(Instr::Link { peer: expr }),
        Verb::Unlink => Ok(Instr::Unlink { peer: expr }),
        Verb::Unalias => Ok(Instr::Unalias { reference: expr }),
        Verb::Exit => Ok(Instr::Exit { reason: expr }),
        _ => unreachable!(),
    }
}

/// The instruction of a verb behind which two expressions stand.
#[tactic(auto, unfolding(crate::specs::Forms::instr_of))]
fn read_of_two(alloc: Global, known: &Known, verb: Verb, line: &Line) -> Result<Instr, Stop>
    requires operands { operands_of verb ≡ Operand.an_expr ∷ Operand.an_expr ∷ [] }
    ensures { Gives (λ i. i) result (instr_of known.now 0 verb line.now.text line.now.tokens) }
{
    let (first, rest) = take_phrase(alloc, known, line)?;
    match one_expr(alloc, known, &rest) {
        Ok(second) => match verb {
            Verb::Send => Ok(Instr::Send {
                to: first,
                message: second,
            }),
            Verb::ExitTo => Ok(Instr::ExitTo {
                target: first,
                reason: second,
            }),
            _ => unreachable!(),
        },
        Err(stop) => {
            drop(first);
            Err(stop)
        }
    }
}

/// The instruction of a verb behind which a variable stands.
#[tactic(auto, unfolding(crate::specs::Forms::instr_of))]
fn read_of_variable(alloc: Global, verb: Verb, line: &Line) -> Result<Instr, Stop>
    requires operands { operands_of verb ≡ Operand.a_variable ∷ [] }
    ensures { Gives (λ i. i) result (instr_of Known.Any 0 verb line.now.text line.now.tokens) }
{
    let (var, rest) = take_variable(alloc, line)?;
    match verb {
        Verb::MakeRef => alone(Instr::MakeRef { var }, &rest),
        Verb::Bind => alone(Instr::Bind { var }, &rest),
        Verb::Clear => alone(Instr::Clear { var }, &rest),
        _ => unreachable!(),
    }
}

/// What stands behind `trap`: `on` or `off`.
#[tactic(auto, unfolding(crate::specs::Forms::instr_of))]
fn read_trap(line: &Line) -> Result<Instr, Stop>
    ensures { Gives (λ i. i) result (instr_of Known.Any 0 Verb.Trap line.now.text line.now.tokens) }
{
    let word = whole_word(line)?;
    let on = read_switch(word)?;
    Ok(Instr::Trap { on })
}

/// The instruction of the verb, of the process with this place among the processes.
#[tactic(auto, unfolding(crate::specs::Forms::instr_of))]
fn read_instr(
    alloc: Global,
    known: &Known,
    here: usize,
    verb: Verb,
    line: &Line,
) -> Result<Instr, Stop>
    ensures { Gives (λ i. i) result (instr_of known.now here verb line.now.text line.now.tokens) }
{
    match verb {
        Verb::Send => read_of_two(alloc, known, Verb::Send, line),
        Verb::Set => read_set(alloc, known, line),
        Verb::MakeRef => read_of_variable(alloc, Verb::MakeRef, line),
        Verb::Link => read_of_expr(alloc, known, Verb::Link, line),
        Verb::Unlink => read_of_expr(alloc, known, Verb::Unlink, line),
        Verb::Monitor => read_monitor(alloc, known, line),
        Verb::Demonitor => read_demonitor(alloc, known, line),
        Verb::Alias => read_alias(alloc, line),
        Verb::Unalias => read_of_expr(alloc, known, Verb::Unalias, line),
        Verb::Exit => read_of_expr(alloc, known, Verb::Exit, line),
        Verb::ExitTo => read_of_two(alloc, known, Verb::ExitTo, line),
        Verb::Trap => read_trap(line),
        Verb::Reserve => alone(Instr::Reserve, line),
        Verb::Bind => read_of_variable(alloc, Verb::Bind, line),
        Verb::Clear => read_of_variable(alloc, Verb::Clear, line),
        Verb::Goto => read_goto(known, here, line),
        Verb::Stop => alone(Instr::Stop, line),
    }
}

/// What stands behind the word, for the process with this place among the processes.
#[tactic(auto, unfolding(crate::specs::Forms::form_of))]
fn read_form(
    alloc: Global,
    known: &Known,
    here: usize,
    word: Keyword,
    line: &Line,
) -> Result<Form, Stop>
    ensures { Gives (λ f. f) result (form_of known.now here word line.now.text line.now.tokens) }
{
    match word {
        Keyword::Turns => read_turns(line),
        Keyword::Process => read_name(alloc, line).map(Form::Process),
        Keyword::QueueData => read_queue_data(line).map(Form::QueueData),
        Keyword::Label => read_name(alloc, line).map(Form::Label),
        Keyword::Receive => {
            let using = read_marker(alloc, line)?;
            Ok(Form::Receive { using })
        }
        Keyword::On => read_on(alloc, known, here, line),
        Keyword::After => {
            let target = take_arrow(known, here, line)?;
            Ok(Form::After(After { target }))
        }
        Keyword::End => alone(Form::End, line),
        Keyword::Do(verb) => read_instr(alloc, known, here, verb, line).map(Form::Do),
    }
}

/// Whether a line that begins with the word may stand behind what was read so far.
fn stands(draft: &Draft, word: Keyword) -> bool
    ensures { result ≡ may_stand draft.now word }
{
    match &draft.section {
        Section::Before => word.may_begin(draft.turns),
        Section::Outside(_) => word.may_be_outside(),
        Section::Inside(_, receiving) => word.may_be_inside(receiving.after.is_some()),
    }
}

fn read_behind(
    alloc: Global,
    known: &Known,
    draft: &Draft,
    word: Option<Keyword>,
    line: &Line,
) -> Result<Form, Stop>
    ensures { Gives (λ f. f) result (form_behind known.now draft.now word line.now.text line.now.tokens) }
{
    match word {
        Some(word) if stands(draft, word) => {
            read_form(alloc, known, draft.procs.as_slice().len(), word, line)
        }
        _ => Err(Stop::Fault(FaultKind::Syntax)),
    }
}

#[tactic(auto, unfolding(crate::specs::Forms::said_by))]
fn read_said(alloc: Global, known: &Known, draft: &Draft, line: &Line) -> Result<Option<Form>, Stop>
    ensures { Gives (λ f. f) result (said_by known.now draft.now line.now.text line.now.tokens) }
{
    match line.split_first() {
        None => Ok(None),
        Some((token, rest)) => {
            let word = read_keyword(line.word(token));
            read_behind(alloc, known, draft, word, &rest).map(Some)
        }
    }
}

/// What a line says behind what was read so far, or what is wrong with it. A line without tokens
/// says nothing. The room of the list of tokens is used again.
#[tactic(auto, unfolding(crate::specs::Forms::said))]
pub fn read_line(
    alloc: Global,
    known: &Known,
    draft: &Draft,
    tokens: &mut Tokens,
    text: &[u8],
) -> Result<Option<Form>, Stop>
    ensures { Gives (λ f. f) result (said known.now draft.now text.now) }
{
    read_tokens(alloc, draft.version, tokens, text)?;
    read_said(alloc, known, draft, &Line::new(text, tokens.as_slice()))
}
