//! What a command writes.

ghost use Rattle.std.specs.Prelude.{◌≡◌};
ghost use Rattle.sig_view.specs.declared.status.ViewStatus.TheVariants as status;

use crate::status::ViewStatus;

/// What a command writes, and how its call ends when that is written.
#[derive(Drop)]
pub(crate) struct Text {
    /// What is written.
    pub bytes: Vec<u8>,
    /// `Done` or `Unfinished`.
    pub end: ViewStatus,
}

impl Text {
    /// What is written of one that is done then.
    pub(crate) fn whole(bytes: Vec<u8>) -> Text
        ensures bytes { result.bytes.items ≡ bytes.items }
        ensures end { result.end ≡ status.Done }
    {
        Text {
            bytes,
            end: ViewStatus::Done,
        }
    }
}
