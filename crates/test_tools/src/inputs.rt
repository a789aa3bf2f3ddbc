//! The numbers of the statuses.

use sig_call::CallFault;
use sig_script::FaultKind;
use sig_tool::ToolStatus;

const NO_HEADER: ToolStatus = ToolStatus::BadScript {
    line: 1,
    kind: FaultKind::Header,
};

const NO_RECORD: ToolStatus = ToolStatus::BadRecord { line: 1 };

#[test]
fn statuses_have_their_numbers(rt: HostRuntime) {
    let numbers = [
        ToolStatus::Done.number(),
        NO_HEADER.number(),
        ToolStatus::Usage.number(),
        ToolStatus::ReadFault.number(),
        ToolStatus::WriteFault.number(),
        ToolStatus::Memory.number(),
        ToolStatus::No { event: 1 }.number(),
        NO_RECORD.number(),
        ToolStatus::TooLong.number(),
        ToolStatus::NoEvent.number(),
        ToolStatus::BadCall {
            line: 1,
            kind: CallFault::Form,
        }
        .number(),
    ];
    assert!(rt; numbers == [0, 1, 2, 3, 4, 5, 6, 7, 8, 9, 10]);
}
