//! A record behind its script.

ghost use Rattle.std.specs.Prelude.{◌≡◌, ◌≢◌, ◌≤◌, ◌++◌, ℕ, List, length, codes, Ok};
ghost use Rattle.sig_program.specs.Scripts.{Program};
ghost use Rattle.sig_reader.specs.Grammar.{script_of};
ghost use Rattle.sig_record.specs.declared.report.Report.{Report};
ghost use Rattle.sig_record.specs.ReadableRecord.{IsReadableRecord};
ghost use Rattle.sig_record.specs.RecordText.{record_text};
ghost use Rattle.sig_record.specs.RunRecord.{IsOfSettledRun};
ghost use Rattle.sig_tool.specs.declared.command.Command.{Command as Asked};
ghost use Rattle.sig_tool.specs.declared.command.Command.TheVariants.{Expand};
ghost use Rattle.sig_tool.specs.declared.given.TheConstants.{MOST_INPUT};
ghost use Rattle.sig_tool.specs.declared.status.ToolStatus.TheVariants.{Done};
ghost use Rattle.sig_tool.specs.Answers.{IsDue};
ghost use Rattle.sig_tool.specs.Commands.{HasEvents};
ghost use Rattle.sig_tool.specs.Split.{record_part, script_part};

/// No line of a script is the first of a record. So a script's text that ends with a line feed, and a
/// record's text behind it, are cut into these two; and where the record is that of a settled run of
/// the script, and has the events of which a command of records asks, `Done` is due for both together.
pub fn a_record_is_cut_from_its_script()
    ensures cut { (text front : List ℕ) (script : Program) (reports : List Report) →
        text ≡ front ++ codes "\n" → script_of text ≡ Ok script →
        (script_part (text ++ record_text reports) ≡ text) × (record_part (text ++ record_text reports) ≡ record_text reports) }
    ensures due { (text front : List ℕ) (script : Program) (reports : List Report) →
        text ≡ front ++ codes "\n" → script_of text ≡ Ok script →
        IsReadableRecord reports → IsOfSettledRun script reports → length (text ++ record_text reports) ≤ MOST_INPUT →
        (command : Asked) → command ≢ Expand → HasEvents command reports → IsDue command (text ++ record_text reports) Done }
{}
