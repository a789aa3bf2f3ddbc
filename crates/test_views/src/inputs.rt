//! The numbers of the statuses.

use sig_script::FaultKind;
use sig_view::ViewStatus;

const NO_HEADER: ViewStatus = ViewStatus::BadScript {
    line: 1,
    kind: FaultKind::Header,
};

const NO_RECORD: ViewStatus = ViewStatus::BadRecord { line: 1 };

#[test]
fn statuses_have_their_numbers(rt: HostRuntime) {
    let numbers = [
        ViewStatus::Done.number(),
        NO_HEADER.number(),
        ViewStatus::Usage.number(),
        ViewStatus::ReadFault.number(),
        ViewStatus::WriteFault.number(),
        ViewStatus::Memory.number(),
        ViewStatus::No { event: 1 }.number(),
        NO_RECORD.number(),
        ViewStatus::TooLong.number(),
        ViewStatus::NoEvent.number(),
        ViewStatus::Unfinished { states: 1 }.number(),
        ViewStatus::TooManyEvents.number(),
        ViewStatus::NoOutcome.number(),
        ViewStatus::NotFound { states: 1 }.number(),
    ];
    assert!(rt; numbers == [0, 1, 2, 3, 4, 5, 6, 7, 8, 9, 0, 11, 12, 13]);
}
