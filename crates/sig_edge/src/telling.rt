ghost use Rattle.std.specs.Prelude.{◌≤◌, ◌++◌, codes, decimal};
ghost use Rattle.std.specs.List.{flat_map};
ghost use Rattle.sig_edge.specs.Streams.{writing};
ghost use Rattle.sig_edge.specs.Told.{IsTold, memory_text, number_text, read_fault_text, refusal_text, write_fault_text};

use itoa::Buffer;
use sig_base::{Sink, Written, write_whole};
use sig_script::FaultKind;

/// A write failed. What was to follow isn't written.
#[derive(Clone, Copy, PartialEq, Eq)]
pub struct Untold;

/// Writes a piece of what there is to tell. `Untold` only where a write failed, and then the
/// beginning of the piece was written.
pub fn tell_piece<E: Sink>(err: &mut E, piece: &[u8]) -> Result<(), Untold>
    ensures told { IsTold (writing (E.held err.old) (E.held err.new) (E.faults err.old) (E.faults err.new)) piece.now result }
    ensures count { E.faults err.old ≤ E.faults err.new }
{
    match write_whole(err, piece) {
        Written::Whole => Ok(()),
        Written::WriteFault { written: _ } => Err(Untold),
    }
}

/// Writes the pieces of what there is to tell, one behind the other. `Untold` only where a write
/// failed, and then the beginning of them was written.
pub fn tell_pieces<E: Sink>(err: &mut E, pieces: &[&[u8]]) -> Result<(), Untold>
    ensures told { IsTold (writing (E.held err.old) (E.held err.new) (E.faults err.old) (E.faults err.new))
        (flat_map (λ piece. piece.now) pieces.now) result }
    ensures count { E.faults err.old ≤ E.faults err.new }
{
    for piece in pieces {
        tell_piece(err, piece)?;
    }
    Ok(())
}

/// Writes words, a number and what stands right behind it: `PROGRAM: WORDS NUMBER BEHIND`, with no space before
/// what stands behind. `Untold` only where a write failed, and then the beginning of that line was written.
pub fn tell_number<'a, E: Sink>(
    err: &mut E,
    program: &'a str,
    words: &'a str,
    number: u64,
    behind: &'a str,
) -> Result<(), Untold>
    ensures told { IsTold (writing (E.held err.old) (E.held err.new) (E.faults err.old) (E.faults err.new))
        (number_text program.now words.now number behind.now) result }
    ensures count { E.faults err.old ≤ E.faults err.new }
{
    let mut digits = Buffer::new();
    let digits = digits.format(number).as_bytes();
    tell_pieces(
        err,
        &[
            program.as_bytes(),
            b": ",
            words.as_bytes(),
            b" ",
            digits,
            behind.as_bytes(),
            b"\n",
        ],
    )
}

/// Writes what is wrong with a line: `PROGRAM: line LINE: WORD`. `Untold` only where a write failed, and
/// then the beginning of that line was written.
pub fn tell_line<E: Sink>(err: &mut E, program: &str, line: u64, word: &str) -> Result<(), Untold>
    ensures told { IsTold (writing (E.held err.old) (E.held err.new) (E.faults err.old) (E.faults err.new))
        (program.now ++ codes ": " ++ (codes "line " ++ decimal line ++ codes ": " ++ word.now) ++ codes "\n") result }
    ensures count { E.faults err.old ≤ E.faults err.new }
{
    let mut digits = Buffer::new();
    let digits = digits.format(line).as_bytes();
    tell_pieces(
        err,
        &[
            program.as_bytes(),
            b": line ",
            digits,
            b": ",
            word.as_bytes(),
            b"\n",
        ],
    )
}

/// Writes why a script is refused: `PROGRAM: line LINE: KIND`, with the kind's word. `Untold` only
/// where a write failed, and then the beginning of that line was written.
pub fn tell_refusal<E: Sink>(
    err: &mut E,
    program: &str,
    line: u64,
    kind: FaultKind,
) -> Result<(), Untold>
    ensures told { IsTold (writing (E.held err.old) (E.held err.new) (E.faults err.old) (E.faults err.new))
        (refusal_text program.now line kind) result }
    ensures count { E.faults err.old ≤ E.faults err.new }
{
    tell_line(err, program, line, kind.word())
}

/// Writes that a read failed: `PROGRAM: read fault`. `Untold` only where a write failed, and then the
/// beginning of that line was written.
pub fn tell_read_fault<E: Sink>(err: &mut E, program: &str) -> Result<(), Untold>
    ensures told { IsTold (writing (E.held err.old) (E.held err.new) (E.faults err.old) (E.faults err.new))
        (read_fault_text program.now) result }
    ensures count { E.faults err.old ≤ E.faults err.new }
{
    tell_pieces(err, &[program.as_bytes(), b": read fault\n"])
}

/// Writes that a write failed: `PROGRAM: write fault`. `Untold` only where a write failed here too,
/// and then the beginning of that line was written.
pub fn tell_write_fault<E: Sink>(err: &mut E, program: &str) -> Result<(), Untold>
    ensures told { IsTold (writing (E.held err.old) (E.held err.new) (E.faults err.old) (E.faults err.new))
        (write_fault_text program.now) result }
    ensures count { E.faults err.old ≤ E.faults err.new }
{
    tell_pieces(err, &[program.as_bytes(), b": write fault\n"])
}

/// Writes that there was no memory to go on: `PROGRAM: out of memory`. It takes none. `Untold` only
/// where a write failed, and then the beginning of that line was written.
pub fn tell_memory<E: Sink>(err: &mut E, program: &str) -> Result<(), Untold>
    ensures told { IsTold (writing (E.held err.old) (E.held err.new) (E.faults err.old) (E.faults err.new))
        (memory_text program.now) result }
    ensures count { E.faults err.old ≤ E.faults err.new }
{
    tell_pieces(err, &[program.as_bytes(), b": out of memory\n"])
}
