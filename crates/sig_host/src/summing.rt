//! The text of a summary.

ghost use Rattle.std.specs.Prelude.{◌≡◌, ◌++◌, IfOk, OnOk};
ghost use Rattle.sig_host.specs.Told.{count_line, summary_text};

use itoa::Buffer;
use sig_record::Summary;
use std::alloc::{AllocError, Global};

/// Appends a line: a name, and how many of it there are.
fn add_line(text: &mut Vec<u8>, name: &[u8], count: u64) -> Result<(), AllocError>
    ensures { OnOk result (text.new.items ≡ text.old.items ++ count_line name.now count) }
{
    let mut digits = Buffer::new();
    text.extend_from_slice(name)?;
    text.extend_from_slice(b" ")?;
    text.extend_from_slice(digits.format(count).as_bytes())?;
    text.extend_from_slice(b"\n")?;
    Ok(())
}

/// The six lines of a summary.
pub fn summary_text(alloc: Global, summary: &Summary) -> Result<Vec<u8>, AllocError>
    ensures { IfOk result (λ text. text.items ≡ summary_text summary.now) }
{
    let mut text = Vec::new(alloc);
    add_line(&mut text, b"processes", summary.processes)?;
    add_line(&mut text, b"events", summary.events)?;
    add_line(&mut text, b"kept", summary.kept)?;
    add_line(&mut text, b"ended", summary.ended)?;
    add_line(&mut text, b"waiting", summary.waiting)?;
    add_line(&mut text, b"cut", summary.cut)?;
    Ok(text)
}
