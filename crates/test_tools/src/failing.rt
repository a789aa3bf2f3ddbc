//! Reads and writes that fail, each in turn.

use crate::called::Called;
use sig_call::CallFault;
use sig_tool::ToolStatus;
use std::alloc::{AllocError, Global};
use test_shared::{
    CHECK, Ending, ONE_CALL, ONE_CALL_SCRIPT, ONE_MESSAGE, ONE_MESSAGE_RECORD, Program, Setting,
    Tool, Work, YES, first_other,
};

/// Commands, with what they write.
static WORKS: [Work; 3] = [
    Work {
        words: &["check"],
        script: ONE_MESSAGE,
        told: ONE_MESSAGE_RECORD,
        text: YES,
    },
    Work {
        words: &["replay"],
        script: ONE_MESSAGE,
        told: ONE_MESSAGE_RECORD,
        text: ONE_MESSAGE_RECORD,
    },
    Work {
        words: &["expand"],
        script: ONE_CALL,
        told: b"",
        text: ONE_CALL_SCRIPT,
    },
];

#[test]
fn each_failing_call_is_told(rt: HostRuntime) {
    for work in &WORKS {
        let other = first_other::<Tool>(rt.alloc(), work);
        assert!(rt; other == Ok(None), "{other:?}");
    }
}

/// Whether a cause that comes first is told before a failing write: the verdict, a line that is refused as
/// a call, or a failing read.
fn are_in_order(alloc: Global) -> Result<bool, AllocError> {
    let setting = Setting {
        failing_writes: &[1],
        ..CHECK
    };
    let expanding = Setting {
        words: &["expand"],
        ..setting
    };
    let unread = Setting {
        failing_reads: &[1],
        ..setting
    };
    let no = ToolStatus::No { event: 1 };
    let form = ToolStatus::BadCall {
        line: 1,
        kind: CallFault::Form,
    };
    let refused: Ending<Tool> = (no, b"", b"sigtool: no at event 1\n");
    let no_call: Ending<Tool> = (form, b"", b"sigtool: line 1: call_form\n");
    let failed: Ending<Tool> = (ToolStatus::ReadFault, b"", Tool::READ_TOLD);
    Ok(
        Called::ends_so(alloc, &setting, ONE_MESSAGE, b"sigrecord 1\n", refused)?
            && Called::ends_so(alloc, &expanding, b"call", b"", no_call)?
            && Called::ends_so(alloc, &unread, b"no script", b"", failed)?,
    )
}

#[test]
fn the_first_cause_is_told(rt: HostRuntime) {
    let ordered = are_in_order(rt.alloc());
    assert!(rt; ordered == Ok(true));
}
