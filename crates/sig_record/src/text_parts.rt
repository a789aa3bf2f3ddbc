ghost use Rattle.std.specs.Prelude.{◌≡◌, ◌++◌, List};
ghost use Rattle.sig_record.specs.declared.report.Report.{Report};
ghost use Rattle.sig_record.specs.RecordText.{header_text, reports_text, record_text};

/// The text of a record is its header and then the texts of its reports, and these may be cut anywhere:
/// the text of those in front, and behind it that of the others, is the text of all.
pub fn a_records_text_is_that_of_its_parts()
    ensures whole { (reports : List Report) → record_text reports ≡ header_text ++ reports_text reports }
    ensures parts { (front back : List Report) → reports_text (front ++ back) ≡ reports_text front ++ reports_text back }
{}
