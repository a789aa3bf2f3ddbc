//! What holds of the texts of scripts.

ghost use Rattle.std.specs.Prelude.{◌≡◌, ◌≤◌, ◌*◌, ℕ, List, length, Ok};
ghost use Rattle.sig_canon.specs.Generated.{generated};
ghost use Rattle.sig_reader.specs.Grammar.{script_of};
ghost use Rattle.sig_canon.specs.ReadableScript.{IsReadableScript};
ghost use Rattle.sig_canon.specs.ScriptText.{script_text};
ghost use Rattle.sig_program.specs.Scripts.{Program};
ghost use Rattle.sig_program.specs.ScriptNames.{AreNames};
ghost use Rattle.sig_canon.specs.declared.generating.TheConstants.{MOST_CALLS};
ghost use Rattle.sig_program.specs.declared.script.TheConstants.{MOST_TURNS};
ghost use Rattle.sig_reader.specs.declared.reader.TheConstants.{MOST_BYTES};

/// A script that was read is one that a canonical text may spell; and the canonical text of such a
/// script is read back as an equal script, if it has at most `MOST_BYTES` bytes.
pub fn a_printed_script_is_read_back()
    ensures readable { (bytes : List ℕ) (s : Program) → script_of bytes ≡ Ok s → IsReadableScript s }
    ensures reads_back { (s : Program) → IsReadableScript s → length (script_text s) ≤ MOST_BYTES → script_of (script_text s) ≡ Ok s }
{}

/// The processes of a script that was read have names that are name tokens, and so have those of a
/// generated one. So the record of each run of such a script is read back from its text. (The
/// language of scripts is this project's own.)
pub fn names_of_scripts_are_name_tokens()
    ensures read { (bytes : List ℕ) (script : Program) → script_of bytes ≡ Ok script → AreNames script }
    ensures generated { (n : ℕ) → AreNames (generated n) }
{}

/// The limits in numbers: [`MOST_CALLS`](crate::MOST_CALLS) is 800, and 24 times as many, three instructions of the hub for a
/// call of each of the eight clients, are at most the turns that a script may have.
pub fn the_limits_of_generated_scripts()
    ensures calls { MOST_CALLS ≡ 800 }
    ensures hub { 24 * MOST_CALLS ≤ MOST_TURNS }
{}
