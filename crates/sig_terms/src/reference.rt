ghost use Rattle.std.specs.Prelude.{◌≡◌, ◌<◌, ◌^◌, OnOk, OnErr, ◌++◌, take, length};
ghost use Rattle.sig_terms.specs.TermText.{reference_text};

use crate::pid::Pid;
use itoa::Buffer;
use std::alloc::AllocError;

/// A reference, unique in a run. (Erlang Reference Manual, Data Types, Reference.)
#[derive(Clone, Copy, PartialEq, Eq, Hash)]
pub struct Ref {
    /// The process that made it.
    pub owner: Pid,
    /// The number of this reference among those of its owner, from 1.
    pub serial: u64,
}

impl Ref {
    /// Appends the reference's text, `#Ref<O.S>`. Where memory is refused, `into` is as before.
    pub fn print(self, into: &mut Vec<u8>) -> Result<(), AllocError>
        ensures text { OnOk result (into.new.items ≡ into.old.items ++ reference_text self) }
        ensures err { OnErr result (into.new.items ≡ into.old.items) }
        // What is printed is a term as `read` knows them.
        ensures term { (self.owner.0 < 2 ^ 32) × (self.serial < 2 ^ 64) }
    {
        let before = into.len();
        let appended = self.append(into);
        if appended.is_err() {
            into.truncate(before);
        }
        appended
    }

    /// Appends the reference's text. Where memory is refused, a part of it may stand behind what
    /// was there.
    fn append(self, into: &mut Vec<u8>) -> Result<(), AllocError>
        ensures text { OnOk result (into.new.items ≡ into.old.items ++ reference_text self) }
        ensures front { OnErr result (take (length into.old.items) into.new.items ≡ into.old.items) }
        ensures term { (self.owner.0 < 2 ^ 32) × (self.serial < 2 ^ 64) }
    {
        let mut owner = Buffer::new();
        let mut serial = Buffer::new();
        into.extend_from_slice(b"#Ref<")?;
        into.extend_from_slice(owner.format(self.owner.0).as_bytes())?;
        into.extend_from_slice(b".")?;
        into.extend_from_slice(serial.format(self.serial).as_bytes())?;
        into.extend_from_slice(b">")
    }
}
