//! The text of the expanded lines.

ghost use Rattle.std.specs.Prelude.{◌≡◌, ◌++◌, OnOk};
ghost use Rattle.std.specs.List.{flat_map};
ghost use Rattle.sig_call.specs.Expanding.{blank, with_line, with_lines};
ghost use Rattle.sig_call.specs.Expansion.{call_lines, down_line, given_line, lines_with, text_of};

use crate::call_line::CallLine;
use itoa::Buffer;
use std::alloc::{AllocError, Global};
use std::marker::Model;

/// The lines so far, each with a line feed behind it, and from which given lines they come.
#[derive(Drop)]
pub struct ExpandedText {
    text: Vec<u8>,
    from: Vec<u64>,
}

impl Model for ExpandedText {
    ghost use Rattle.sig_call.specs.Expanding as spec;

    ghost Value = { spec.ExpandedText };

    ghost view = { λ e. record { text = e.text.items; from = e.from.items } };
}

/// Appends the parts, one behind the other.
fn put_parts(into: &mut Vec<u8>, parts: &[&[u8]]) -> Result<(), AllocError>
    ensures { OnOk result (into.new.items ≡ into.old.items ++ flat_map (λ part. part.now) parts.now) }
{
    for part in parts {
        into.extend_from_slice(part)?;
    }
    Ok(())
}

impl ExpandedText {
    /// No lines. It takes no memory.
    pub fn new(alloc: Global) -> ExpandedText
        ensures { result ≡ blank }
    {
        ExpandedText {
            text: Vec::new(alloc),
            from: Vec::new(alloc),
        }
    }

    /// Appends line `n` of the given text.
    pub fn put_given(&mut self, n: u64, line: &[u8]) -> Result<(), AllocError>
        ensures { OnOk result (self.new ≡ with_line self.old n line.now) }
    {
        self.text.extend_from_slice(line)?;
        self.text.push(b'\n')?;
        self.from.push(n)?;
        Ok(())
    }

    /// Appends the line of these parts, which comes from line `n`.
    fn put_line(&mut self, n: u64, parts: &[&[u8]]) -> Result<(), AllocError>
        ensures { OnOk result (self.new ≡ with_line self.old n (flat_map (λ part. part.now) parts.now)) }
    {
        put_parts(&mut self.text, parts)?;
        self.text.push(b'\n')?;
        self.from.push(n)?;
        Ok(())
    }

    /// Appends the clause that takes the down, with the label of the call.
    fn put_down(&mut self, n: u64, k: &[u8], call: &CallLine) -> Result<(), AllocError>
        ensures { OnOk result (self.new ≡ with_line self.old n (down_line k.now call.now)) }
    {
        match call.label {
            None => self.put_line(
                n,
                &[b"on {'DOWN',^Call_", k, b",process,_,", call.var, b"}"],
            ),
            Some(label) => self.put_line(
                n,
                &[
                    b"on {'DOWN',^Call_",
                    k,
                    b",process,_,",
                    call.var,
                    b"} -> ",
                    label,
                ],
            ),
        }
    }

    /// Appends the lines of the call whose number has the digits `k`, which come from line `n`.
    fn put_lines(&mut self, n: u64, k: &[u8], call: &CallLine) -> Result<(), AllocError>
        ensures { OnOk result (self.new ≡ with_lines self.old n (lines_with k.now call.now)) }
    {
        self.put_line(n, &[b"reserve"])?;
        self.put_line(
            n,
            &[b"monitor Call_", k, b" ", call.target, b" reply_demonitor"],
        )?;
        self.put_line(n, &[b"bind Call_", k])?;
        self.put_line(
            n,
            &[
                b"send ",
                call.target,
                b" {call,Call_",
                k,
                b",",
                call.message,
                b"}",
            ],
        )?;
        self.put_line(n, &[b"receive using Call_", k])?;
        self.put_line(n, &[b"on {^Call_", k, b",", call.var, b"}"])?;
        self.put_down(n, k, call)?;
        self.put_line(n, &[b"end"])
    }

    /// Appends the lines of call `k`, which come from line `n`.
    pub fn put_call(&mut self, n: u64, k: u64, call: &CallLine) -> Result<(), AllocError>
        ensures { OnOk result (self.new ≡ with_lines self.old n (call_lines k call.now)) }
    {
        let mut digits = Buffer::new();
        self.put_lines(n, digits.format(k).as_bytes(), call)
    }

    /// The text of the lines; the last one is without its line feed where `feed` is false.
    pub fn close(&mut self, feed: bool)
        ensures { self.new ≡ record { text = text_of feed self.old.text; from = self.old.from } }
    {
        if !feed {
            let most = self.text.len().saturating_sub(1);
            self.text.truncate(most);
        }
    }

    /// The bytes of the text.
    pub fn bytes(&self) -> &[u8]
        ensures { result.now ≡ self.now.text }
    {
        self.text.as_slice()
    }

    /// The given line from which a line of the text comes; `behind` for one behind the last.
    pub fn given_line(&self, behind: u64, line: u64) -> u64
        ensures { result ≡ given_line self.now.from behind line }
    {
        if line == 0 {
            return 0;
        }
        match self.from.get((line - 1) as usize) {
            Some(given) => *given,
            None => behind,
        }
    }
}
