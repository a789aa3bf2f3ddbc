//! Reads and writes that fail, each in turn.

use crate::called::{Called, PLAIN, Viewer};
use crate::rows::{ITS_OUTCOME, WITH_ITS_END};
use sig_view::ViewStatus;
use std::alloc::{AllocError, Global};
use test_shared::{
    Ending, ONE_MESSAGE, ONE_MESSAGE_RECORD, Program, Setting, WRONG_RECORD, Work, first_other,
};

/// Commands, with what they write.
static WORKS: [Work; 2] = [
    Work {
        words: &["concurrent", "0", "2"],
        script: ONE_MESSAGE,
        told: ONE_MESSAGE_RECORD,
        text: WITH_ITS_END,
    },
    Work {
        words: &["outcomes"],
        script: ONE_MESSAGE,
        told: b"",
        text: ITS_OUTCOME,
    },
];

#[test]
fn each_failing_call_is_told(rt: HostRuntime) {
    for work in &WORKS {
        let other = first_other::<Viewer>(rt.alloc(), work);
        assert!(rt; other == Ok(None), "{other:?}");
    }
}

/// Whether a cause that comes first is told before a failing write and before an event that is missing:
/// the verdict, or a failing read.
fn are_in_order(alloc: Global) -> Result<bool, AllocError> {
    let setting = Setting {
        words: &["concurrent", "0", "3"],
        failing_writes: &[1],
        ..PLAIN
    };
    let unread = Setting {
        words: &["chart"],
        failing_reads: &[1],
        ..setting
    };
    let no = ViewStatus::No { event: 1 };
    let refused: Ending<Viewer> = (no, b"", b"sigview: no at event 1\n");
    let failed: Ending<Viewer> = (ViewStatus::ReadFault, b"", Viewer::READ_TOLD);
    Ok(
        Called::ends_so(alloc, &setting, ONE_MESSAGE, WRONG_RECORD, refused)?
            && Called::ends_so(alloc, &unread, b"no script", b"", failed)?,
    )
}

#[test]
fn the_first_cause_is_told(rt: HostRuntime) {
    let ordered = are_in_order(rt.alloc());
    assert!(rt; ordered == Ok(true));
}
