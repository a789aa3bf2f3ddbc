ghost use Rattle.std.specs.Prelude.{◌≡◌, ◌+◌, ◌<◌, ◌≤◌, ◌^◌, ◌++◌, [], ◌∷◌, length, Ok, Err, All};
ghost use Rattle.sig_tokens.specs.declared.fault.FaultKind.TheVariants.{Syntax};
ghost use Rattle.sig_tokens.specs.declared.fault.Stop.TheVariants.{Fault};
ghost use Rattle.sig_tokens.specs.Faults.{Gives};
ghost use Rattle.sig_program.specs.Scripts.{most_processes};
ghost use Rattle.sig_reader.specs.Drafts.{
  blank,
  open_proc,
  all_procs,
  kept_in,
  bare_proc,
  begun,
  has_room,
  is_bare,
  may_tell,
  labelled,
  with_instr,
  is_marked,
  may_guard,
  with_clause,
  bare_receive,
  taken_at,
  taken,
};
ghost use Rattle.sig_reader.specs.Sections.{inside_of, outside_of, section_taken, clause_placed, data_placed};
ghost use Rattle.sig_reader.specs.Grammar.{finished, line_taken};
ghost use Rattle.sig_reader.specs.Reading.{IsReading, MayEnd};
ghost use Rattle.sig_reader.specs.Fitting.{IsSmall, IsFit};

use crate::form::{Form, read_line};
use crate::reader::ScriptError;
use sig_kinds::QueueData;
use sig_lists::Sequence;
use sig_patterns::{Clause, Clauses, Guard, Pattern, Var, pins};
use sig_program::{
    After, DEFAULT_TURNS, Instr, Label, MOST_TURNS, Receiving, Version, most_processes,
};
use sig_terms::Name;
use sig_tokens::{DraftProc, DraftScript, FaultKind, Known, LabelTable, ProcTable, Stop, Tokens};
use std::alloc::Global;
use std::mem::{drop, replace};

/// Where in a script a line stands.
#[derive(Drop)]
pub enum Section {
    /// Before the first process.
    Before,
    /// In this process, outside a receive.
    Outside(DraftProc),
    /// In a receive of this process, of which so much was read.
    Inside(DraftProc, Receiving),
}

/// What was read so far.
#[derive(Drop)]
pub struct Draft {
    /// The version of the script, which its first line tells.
    pub version: Version,
    /// How many instructions each process may execute, where that was said.
    pub turns: Option<u32>,
    /// The processes before the one that is being read.
    pub procs: ProcTable,
    /// Where the next line stands.
    pub section: Section,
    /// Whether the process that is being read has told where it keeps its messages.
    pub told: bool,
}

impl Draft {
    /// Before the first line behind the header of this version.
    pub fn new(alloc: Global, version: Version) -> Draft
        ensures { result ≡ blank version }
    {
        Draft {
            version,
            turns: None,
            procs: ProcTable::new(alloc),
            section: Section::Before,
            told: false,
        }
    }
}

/// Refuses what can't stand where it is.
fn refuse<T: Drop>(_said: T) -> Result<(), Stop>
    ensures { result ≡ Err (Fault Syntax) }
{
    Err(Stop::Fault(FaultKind::Syntax))
}

/// Lets this section stand in the place of another.
fn enter(section: &mut Section, next: Section)
    ensures { section.new ≡ next }
{
    drop(replace(section, next));
}

/// Closes the process that was being read.
fn close(procs: &mut ProcTable, section: Section) -> Result<(), Stop>
    ensures { Gives (λ u. procs.new) result (Ok (procs.old ++ open_proc section)) }
{
    match section {
        Section::Before => Ok(()),
        Section::Outside(proc) => {
            procs.add(proc)?;
            Ok(())
        }
        Section::Inside(proc, _receiving) => {
            procs.add(proc)?;
            Ok(())
        }
    }
}

/// Whether there is room behind these processes of a script of this version for one of this name.
fn check_room(version: Version, procs: &ProcTable, name: &[u8]) -> Result<(), Stop>
    ensures { Gives (λ u. u) result (has_room version procs.now name.now) }
{
    if procs.has(name) {
        return Err(Stop::Fault(FaultKind::DuplicateName));
    }
    if procs.as_slice().len() >= most_processes(version) {
        return Err(Stop::Fault(FaultKind::TooManyProcesses));
    }
    Ok(())
}

/// Where a process keeps its messages that doesn't tell it.
fn kept_in(version: Version) -> QueueData
    ensures { result ≡ kept_in version }
{
    match version {
        Version::One => QueueData::OffHeap,
        Version::Two => QueueData::OnHeap,
    }
}

/// A process of a script of this version, of which only its first line was read.
fn bare_proc(alloc: Global, version: Version, name: Name) -> DraftProc
    ensures { result ≡ bare_proc version name }
{
    DraftProc {
        name,
        queue_data: kept_in(version),
        labels: LabelTable::new(alloc),
        instrs: Sequence::new(alloc),
    }
}

/// A process line.
fn begin(alloc: Global, draft: &mut Draft, name: Name) -> Result<(), Stop>
    ensures { Gives (λ u. draft.new) result (begun draft.old name) }
{
    close(
        &mut draft.procs,
        replace(&mut draft.section, Section::Before),
    )?;
    check_room(draft.version, &draft.procs, name.bytes())?;
    let proc = bare_proc(alloc, draft.version, name);
    enter(&mut draft.section, Section::Outside(proc));
    draft.told = false;
    Ok(())
}

/// Whether nothing stands in the process yet.
fn is_bare(proc: &DraftProc) -> bool
    ensures { result ≡ is_bare proc.now }
{
    proc.labels.labels().is_empty() && proc.instrs.as_slice().is_empty()
}

/// Whether a process of a script of this version may tell where it keeps its messages, which it has
/// told before or not.
fn may_tell(version: Version, told: bool, proc: &DraftProc) -> bool
    ensures { result ≡ may_tell version told proc.now }
{
    match version {
        Version::One => false,
        Version::Two => !told && is_bare(proc),
    }
}

/// A label line.
fn add_label(alloc: Global, proc: &mut DraftProc, name: Name) -> Result<(), Stop>
    requires instrs { length proc.old.instrs + 1 < 2 ^ 32 }
    requires labels { length proc.old.labels < 2 ^ 32 }
    ensures { Gives (λ u. proc.new) result (labelled proc.old name) }
{
    if proc.labels.has(name.bytes()) {
        return Err(Stop::Fault(FaultKind::DuplicateLabel));
    }
    let place = proc.instrs.len() as u32 + 1;
    proc.labels.add(alloc, Label { name, place })?;
    Ok(())
}

/// An instruction.
fn add_instr(proc: &mut DraftProc, instr: Instr) -> Result<(), Stop>
    ensures { Gives (λ u. proc.new) result (Ok (with_instr proc.old instr)) }
{
    proc.instrs.add(instr)?;
    Ok(())
}

/// A turns line.
fn take_turns(draft: &mut Draft, n: u64) -> Result<(), Stop>
    ensures { Gives (λ u. draft.new) result (taken_at draft.old draft.old.section (Form.Turns n)) }
{
    let Section::Before = &draft.section else {
        return Err(Stop::Fault(FaultKind::Syntax));
    };
    if n <= u64::from(MOST_TURNS) {
        draft.turns = Some(n as u32);
        Ok(())
    } else {
        Err(Stop::Fault(FaultKind::TooManyTurns))
    }
}

/// A process line, outside a receive.
fn take_process(alloc: Global, draft: &mut Draft, name: Name) -> Result<(), Stop>
    ensures { Gives (λ u. draft.new) result (taken_at draft.old draft.old.section (Form.Process name)) }
{
    match &draft.section {
        Section::Inside(_, _) => Err(Stop::Fault(FaultKind::Syntax)),
        _ => begin(alloc, draft, name),
    }
}

/// The line of where a process keeps its messages, in a section whose process has told it before or
/// not.
fn place_queue_data(
    version: Version,
    told: bool,
    section: &mut Section,
    queue_data: QueueData,
) -> Result<(), Stop>
    ensures { Gives (λ u. section.new) result (data_placed version told section.old queue_data) }
{
    match section {
        Section::Outside(proc) => {
            if !may_tell(version, told, proc) {
                return Err(Stop::Fault(FaultKind::Syntax));
            }
            proc.queue_data = queue_data;
            Ok(())
        }
        _ => Err(Stop::Fault(FaultKind::Syntax)),
    }
}

/// The line of where a process keeps its messages.
fn take_queue_data(draft: &mut Draft, queue_data: QueueData) -> Result<(), Stop>
    ensures { Gives (λ u. draft.new) result (taken_at draft.old draft.old.section (Form.QueueData queue_data)) }
{
    place_queue_data(draft.version, draft.told, &mut draft.section, queue_data)?;
    draft.told = true;
    Ok(())
}

/// A label line in a process, outside a receive.
#[tactic(auto, using(crate::proofs::FitLemmas::one_few))]
fn place_label(alloc: Global, section: &mut Section, name: Name) -> Result<(), Stop>
    requires { All (IsSmall (2 ^ 31)) (open_proc section.old) }
    ensures { Gives (λ u. section.new) result (section_taken section.old (Form.Label name)) }
{
    match section {
        Section::Outside(proc) => add_label(alloc, proc, name),
        _ => Err(Stop::Fault(FaultKind::Syntax)),
    }
}

/// An instruction that is no receive.
fn place_instr(section: &mut Section, instr: Instr) -> Result<(), Stop>
    ensures { Gives (λ u. section.new) result (section_taken section.old (Form.Do instr)) }
{
    match section {
        Section::Outside(proc) => add_instr(proc, instr),
        _ => refuse(instr),
    }
}

/// A receive of which only its first line was read.
fn bare_receive(alloc: Global, marker: Option<Var>) -> Receiving
    ensures { result ≡ bare_receive marker }
{
    Receiving {
        using: marker,
        clauses: Sequence::new(alloc),
        after: None,
    }
}

/// A receive begins in the process that is being read.
fn inside(alloc: Global, section: Section, marker: Option<Var>) -> Section
    ensures { result ≡ inside_of section marker }
{
    match section {
        Section::Outside(proc) => Section::Inside(proc, bare_receive(alloc, marker)),
        other => other,
    }
}

/// The first line of a receive.
fn place_receive(alloc: Global, section: &mut Section, marker: Option<Var>) -> Result<(), Stop>
    ensures { Gives (λ u. section.new) result (section_taken section.old (Form.Receive marker)) }
{
    match section {
        Section::Outside(_) => {
            let outside = replace(section, Section::Before);
            enter(section, inside(alloc, outside, marker));
            Ok(())
        }
        _ => Err(Stop::Fault(FaultKind::Syntax)),
    }
}

/// Whether the pattern pins the variable of the receive's marker, where it has one.
fn pins_marker(marker: &Option<Var>, pattern: &Pattern) -> bool
    ensures { result ≡ is_marked marker.now pattern.now }
{
    match marker {
        Some(var) => pins(pattern, var),
        None => true,
    }
}

/// A clause behind these.
fn add_pinned(clauses: &mut Clauses, clause: Clause) -> Result<(), Stop>
    ensures { Gives (λ u. clauses.new) result (Ok (clauses.old ++ clause ∷ [])) }
{
    clauses.add(clause)?;
    Ok(())
}

/// Whether a script of this version may have the guard.
fn may_guard(version: Version, guard: &Option<Guard>) -> bool
    ensures { result ≡ may_guard version guard.now }
{
    match guard {
        None => true,
        Some(_) => matches!(version, Version::Two),
    }
}

/// A clause behind these, in a receive with this marker.
fn add_clause(
    version: Version,
    marker: &Option<Var>,
    clauses: &mut Clauses,
    clause: Clause,
) -> Result<(), Stop>
    ensures { Gives (λ u. clauses.new) result (with_clause version marker.now clauses.old clause) }
{
    if !may_guard(version, &clause.guard) {
        return refuse(clause);
    }
    if pins_marker(marker, &clause.pattern) {
        add_pinned(clauses, clause)
    } else {
        drop(clause);
        Err(Stop::Fault(FaultKind::MarkerNotInClause))
    }
}

/// A clause line in a receive.
fn place_clause(version: Version, section: &mut Section, clause: Clause) -> Result<(), Stop>
    ensures { Gives (λ u. section.new) result (clause_placed version section.old clause) }
{
    match section {
        Section::Inside(_, receiving) => add_clause(
            version,
            &receiving.using,
            &mut receiving.clauses,
            clause,
        ),
        _ => refuse(clause),
    }
}

/// The line of where a receive goes on that finds no message.
fn place_after(section: &mut Section, next: After) -> Result<(), Stop>
    ensures { Gives (λ u. section.new) result (section_taken section.old (Form.After next)) }
{
    match section {
        Section::Inside(_, receiving) => {
            receiving.after = Some(next);
            Ok(())
        }
        _ => Err(Stop::Fault(FaultKind::Syntax)),
    }
}

/// The process with one instruction more.
fn longer(proc: DraftProc, instr: Instr) -> Result<DraftProc, Stop>
    ensures { Gives (λ p. p) result (Ok (with_instr proc instr)) }
{
    let mut proc = proc;
    match add_instr(&mut proc, instr) {
        Ok(()) => Ok(proc),
        Err(stop) => {
            drop(proc);
            Err(stop)
        }
    }
}

/// A receive ends, which is one instruction of the process that is being read.
fn outside(section: Section) -> Result<Section, Stop>
    ensures { Gives (λ s. s) result (Ok (outside_of section)) }
{
    match section {
        Section::Inside(proc, receiving) => {
            longer(proc, Instr::Receive(receiving)).map(Section::Outside)
        }
        other => Ok(other),
    }
}

/// The last line of a receive.
fn place_end(section: &mut Section) -> Result<(), Stop>
    ensures { Gives (λ u. section.new) result (section_taken section.old Form.End) }
{
    match section {
        Section::Inside(_, _) => {
            let receive = replace(section, Section::Before);
            enter(section, outside(receive)?);
            Ok(())
        }
        _ => Err(Stop::Fault(FaultKind::Syntax)),
    }
}

/// A form behind what was read so far.
fn take_form(alloc: Global, draft: &mut Draft, n: u64, form: Form) -> Result<(), Stop>
    requires few { n < 2 ^ 31 }
    requires fit { IsFit n draft.old }
    ensures { Gives (λ u. draft.new) result (taken draft.old form) }
{
    match form {
        Form::Turns(n) => take_turns(draft, n),
        Form::Process(name) => take_process(alloc, draft, name),
        Form::QueueData(queue_data) => take_queue_data(draft, queue_data),
        Form::Label(name) => place_label(alloc, &mut draft.section, name),
        Form::Do(instr) => place_instr(&mut draft.section, instr),
        Form::Receive { using } => place_receive(alloc, &mut draft.section, using),
        Form::On(clause) => place_clause(draft.version, &mut draft.section, clause),
        Form::After(next) => place_after(&mut draft.section, next),
        Form::End => place_end(&mut draft.section),
    }
}

/// Line `n` behind what was read so far, or what is wrong with it. What was read is of no use
/// behind a line that is wrong. The room of the list of tokens is used again.
///
/// Asks that `n` is below 2^31; and that what was read so far has at most as many processes as the
/// version allows, by [`most_processes`], each with at most `n` instructions and `n` labels.
pub fn take_line(
    alloc: Global,
    known: &Known,
    draft: &mut Draft,
    n: u64,
    tokens: &mut Tokens,
    text: &[u8],
) -> Result<(), Stop>
    requires few { n < 2 ^ 31 }
    requires fit { IsFit n draft.old }
    ensures { Gives (λ u. draft.new) result (line_taken known.now draft.old text.now) }
{
    match read_line(alloc, known, draft, tokens, text)? {
        Some(form) => take_form(alloc, draft, n, form),
        None => Ok(()),
    }
}

/// Lets go of what was read, where a line is refused.
pub fn discard(draft: Draft) {
    drop(draft);
}

/// Whether the text may end before line `n`.
fn check_end(section: &Section, n: u64) -> Result<(), ScriptError>
    ensures { MayEnd n section.now result }
{
    if let Section::Inside(_, _) = section {
        return Err(ScriptError::Fault {
            line: n,
            kind: FaultKind::Syntax,
        });
    }
    Ok(())
}

/// The script, where the text may end before line `n`.
///
/// Asks that what was read has at most as many processes as the version allows, by
/// [`most_processes`].
#[tactic(auto, using(crate::proofs::FitLemmas::few_in_all))]
pub fn finish(draft: Draft, n: u64) -> Result<DraftScript, ScriptError>
    requires { length (all_procs draft) ≤ most_processes draft.version }
    ensures { IsReading (finished n draft draft.section) result }
{
    let ended = check_end(&draft.section, n);
    let mut procs = draft.procs;
    let closed = close(&mut procs, draft.section);
    ended?;
    match closed {
        Ok(()) => Ok(DraftScript {
            version: draft.version,
            turns: draft.turns.unwrap_or(DEFAULT_TURNS),
            procs,
        }),
        Err(_) => Err(ScriptError::Memory),
    }
}
