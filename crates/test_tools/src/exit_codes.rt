//! The codes with which the tool exits.

use sig_tool::program;
use std::alloc::Global;
use std::process::ExitCode;
use test_shared::{Exit, Input, ONE_CALL, ONE_MESSAGE, ONE_MESSAGE_RECORD, Output, WRONG_RECORD};

/// A record whose verdict is yes.
const DONE: Exit<'static> = Exit {
    line: b"sigtool check",
    input: Input::Texts(ONE_MESSAGE, ONE_MESSAGE_RECORD),
    output: Output::Open,
    errors: Output::Open,
    code: 0,
};

/// Each code but 5, of a want of memory.
static EXITS: [Exit<'static>; 19] = [
    DONE,
    Exit {
        line: b"sigtool replay",
        ..DONE
    },
    Exit {
        line: b"sigtool links",
        ..DONE
    },
    // the answer is yes
    Exit {
        line: b"sigtool before 0 1 1 2",
        ..DONE
    },
    // the answer is no
    Exit {
        line: b"sigtool before 1 2 0 1",
        ..DONE
    },
    Exit {
        line: b"sigtool expand",
        input: Input::Texts(ONE_CALL, b""),
        ..DONE
    },
    Exit {
        input: Input::Texts(b"", ONE_MESSAGE_RECORD),
        code: 1,
        ..DONE
    },
    // a text of calls that is expanded to no script
    Exit {
        line: b"sigtool expand",
        input: Input::Texts(b"sigscript 1\nprocess a\ngoto z\n", b""),
        code: 1,
        ..DONE
    },
    Exit {
        line: b"sigtool",
        code: 2,
        ..DONE
    },
    // what isn't read can't fail, and an error that can't be told changes nothing
    Exit {
        line: b"sigtool check check",
        input: Input::Broken,
        output: Output::Broken,
        errors: Output::Broken,
        code: 2,
    },
    // an argument that is no text
    Exit {
        line: b"sigtool \xff",
        code: 2,
        ..DONE
    },
    Exit {
        input: Input::Broken,
        code: 3,
        ..DONE
    },
    Exit {
        output: Output::Broken,
        code: 4,
        ..DONE
    },
    Exit {
        input: Input::Texts(ONE_MESSAGE, WRONG_RECORD),
        code: 6,
        ..DONE
    },
    // the verdict comes before the failing write
    Exit {
        line: b"sigtool replay",
        input: Input::Texts(ONE_MESSAGE, b"sigrecord 1\n"),
        output: Output::Broken,
        code: 6,
        ..DONE
    },
    Exit {
        input: Input::Texts(ONE_MESSAGE, b""),
        code: 7,
        ..DONE
    },
    Exit {
        line: b"sigtool expand",
        input: Input::Endless,
        code: 8,
        ..DONE
    },
    Exit {
        line: b"sigtool before 0 1 1 4",
        code: 9,
        ..DONE
    },
    Exit {
        line: b"sigtool expand",
        input: Input::Texts(b"call", b""),
        code: 10,
        ..DONE
    },
];

/// Whether the tool that is started so exits with the code.
fn exits_so<R: Alloc<A = Global>>(rt: &R, exit: &Exit) -> bool {
    let code = program(&exit.runtime(rt), exit.input, exit.output, exit.errors);
    code == ExitCode::from(exit.code)
}

#[test]
fn each_exit_has_its_code(rt: HostRuntime) {
    for exit in &EXITS {
        assert!(rt; exits_so(&rt, exit), "{:?} {}", exit.line, exit.code);
    }
}
