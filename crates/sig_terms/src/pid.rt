ghost use Rattle.std.specs.Prelude.{◌≡◌, ◌<◌, ◌^◌, OnOk, OnErr, ◌++◌, take, length};
ghost use Rattle.sig_terms.specs.TermText.{pid_text};

use itoa::Buffer;
use std::alloc::AllocError;

/// A process identifier: the place of the process in its script, from 0.
/// (Erlang Reference Manual, Data Types, Pid.)
#[derive(Clone, Copy, PartialEq, Eq, Hash)]
pub struct Pid(pub u32);

impl Pid {
    /// Appends the pid's text, `<N>`. Where memory is refused, `into` is as before.
    pub fn print(self, into: &mut Vec<u8>) -> Result<(), AllocError>
        ensures text { OnOk result (into.new.items ≡ into.old.items ++ pid_text self.0) }
        ensures err { OnErr result (into.new.items ≡ into.old.items) }
        // What is printed is a term as `read` knows them.
        ensures term { self.0 < 2 ^ 32 }
    {
        let before = into.len();
        let appended = self.append(into);
        if appended.is_err() {
            into.truncate(before);
        }
        appended
    }

    /// Appends the pid's text. Where memory is refused, a part of it may stand behind what was
    /// there.
    fn append(self, into: &mut Vec<u8>) -> Result<(), AllocError>
        ensures text { OnOk result (into.new.items ≡ into.old.items ++ pid_text self.0) }
        ensures front { OnErr result (take (length into.old.items) into.new.items ≡ into.old.items) }
        ensures term { self.0 < 2 ^ 32 }
    {
        let mut buffer = Buffer::new();
        into.extend_from_slice(b"<")?;
        into.extend_from_slice(buffer.format(self.0).as_bytes())?;
        into.extend_from_slice(b">")
    }
}
