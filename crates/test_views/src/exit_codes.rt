//! The codes with which the viewer exits.

use sig_view::program;
use std::alloc::{AllocError, Global};
use std::process::ExitCode;
use std::time::Clock;
use test_shared::{Exit, Input, ONE_MESSAGE, ONE_MESSAGE_RECORD, Output, WRONG_RECORD};

/// A process that turns in a loop until it has made 2,001 events, one more than a chart may have.
const TURNING: &[u8] = b"sigscript 1\nturns 2001\nprocess a\nlabel again\ngoto again\n";

/// Appends the event of the loop with this stamp.
fn push_event(alloc: Global, told: &mut Vec<u8>, stamp: u64) -> Result<(), AllocError> {
    let line = format!(in alloc; "{stamp} exec 1 done\n")?;
    let pushed = told.extend_from_slice(line.as_bytes());
    drop(line);
    pushed
}

/// Appends its record: each event of the loop is done, and the process is cut.
fn push_record(alloc: Global, told: &mut Vec<u8>) -> Result<(), AllocError> {
    told.extend_from_slice(b"sigrecord 1\nprocess 0 a\n")?;
    for stamp in 1..2002u64 {
        push_event(alloc, told, stamp)?;
    }
    told.extend_from_slice(b"state cut\n")
}
/// A chart, which is written.
const DONE: Exit<'static> = Exit {
    line: b"sigview chart",
    input: Input::Texts(ONE_MESSAGE, ONE_MESSAGE_RECORD),
    output: Output::Open,
    errors: Output::Open,
    code: 0,
};

/// A list of outcomes, which is written.
const LISTED: Exit<'static> = Exit {
    line: b"sigview outcomes",
    input: Input::Texts(ONE_MESSAGE, b""),
    ..DONE
};

/// Each code but 5, of a want of memory, 10, of which there is none, and 11.
static EXITS: [Exit<'static>; 19] = [
    DONE,
    Exit {
        line: b"sigview concurrent 0 2",
        ..DONE
    },
    LISTED,
    // the search is cut off
    Exit {
        line: b"sigview outcomes --states 1",
        ..LISTED
    },
    Exit {
        line: b"sigview outcomes --record 1",
        ..LISTED
    },
    Exit {
        input: Input::Texts(b"", ONE_MESSAGE_RECORD),
        code: 1,
        ..DONE
    },
    // behind the script stands a record
    Exit {
        line: b"sigview outcomes",
        code: 1,
        ..DONE
    },
    Exit {
        line: b"sigview concurrent 0",
        code: 2,
        ..DONE
    },
    // what isn't read can't fail, and an error that can't be told changes nothing
    Exit {
        line: b"sigview outcomes --states 0",
        input: Input::Broken,
        output: Output::Broken,
        errors: Output::Broken,
        code: 2,
    },
    // an argument that is no text
    Exit {
        line: b"sigview \xff",
        code: 2,
        ..DONE
    },
    Exit {
        input: Input::Broken,
        code: 3,
        ..DONE
    },
    Exit {
        output: Output::Broken,
        code: 4,
        ..DONE
    },
    Exit {
        output: Output::Broken,
        code: 4,
        ..LISTED
    },
    Exit {
        input: Input::Texts(ONE_MESSAGE, WRONG_RECORD),
        code: 6,
        ..DONE
    },
    Exit {
        input: Input::Texts(ONE_MESSAGE, b""),
        code: 7,
        ..DONE
    },
    Exit {
        input: Input::Endless,
        code: 8,
        ..DONE
    },
    Exit {
        line: b"sigview concurrent 1 4",
        code: 9,
        ..DONE
    },
    Exit {
        line: b"sigview outcomes --record 2",
        code: 12,
        ..LISTED
    },
    Exit {
        line: b"sigview outcomes --states 1 --record 2",
        code: 13,
        ..LISTED
    },
];

/// Whether the viewer that is started so exits with the code.
fn exits_so<R: Clock + Alloc<A = Global>>(rt: &R, exit: &Exit) -> bool {
    let code = program(&exit.runtime(rt), exit.input, exit.output, exit.errors);
    code == ExitCode::from(exit.code)
}

#[test]
fn each_exit_has_its_code(rt: HostRuntime) {
    for exit in &EXITS {
        assert!(rt; exits_so(&rt, exit), "{:?} {}", exit.line, exit.code);
    }
}

/// Whether a chart of more events than it may have exits with the code 11.
fn is_too_long<R: Clock + Alloc<A = Global>>(rt: &R) -> Result<bool, AllocError> {
    let mut told = Vec::new(rt.alloc());
    push_record(rt.alloc(), &mut told)?;
    let exits = exits_so(
        rt,
        &Exit {
            input: Input::Texts(TURNING, told.as_slice()),
            code: 11,
            ..DONE
        },
    );
    drop(told);
    Ok(exits)
}

#[test]
fn a_chart_of_too_many_events_has_its_code(rt: HostRuntime) {
    let is_so = is_too_long(&rt);
    assert!(rt; is_so == Ok(true));
}
