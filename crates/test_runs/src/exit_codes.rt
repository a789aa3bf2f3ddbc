//! The codes with which the program exits.

use sig_host::program;
use std::alloc::Global;
use std::process::ExitCode;
use std::sync::Wait;
use std::thread::Threads;
use test_shared::{Exit, Input, ONE_MESSAGE, Output};

/// A run of one message, whose record is written.
const DONE: Exit<'static> = Exit {
    line: b"sigrun",
    input: Input::Texts(ONE_MESSAGE, b""),
    output: Output::Open,
    errors: Output::Open,
    code: 0,
};

/// Each code but 5, of a want of memory.
static EXITS: [Exit<'static>; 13] = [
    DONE,
    Exit {
        line: b"sigrun --workers 2 --quota 1 --buffers always",
        ..DONE
    },
    Exit {
        line: b"sigrun --generate 1",
        input: Input::Broken,
        ..DONE
    },
    Exit {
        input: Input::Texts(b"sigscript 1\nprocess a\ngoto z\n", b""),
        code: 1,
        ..DONE
    },
    Exit {
        input: Input::Texts(b"", b""),
        code: 1,
        ..DONE
    },
    Exit {
        input: Input::Endless,
        code: 1,
        ..DONE
    },
    Exit {
        line: b"sigrun --workers 0",
        code: 2,
        ..DONE
    },
    // what isn't read can't fail, and an error that can't be told changes nothing
    Exit {
        line: b"sigrun --help",
        input: Input::Broken,
        output: Output::Broken,
        errors: Output::Broken,
        code: 2,
    },
    // an argument that is no text
    Exit {
        line: b"sigrun \xff",
        code: 2,
        ..DONE
    },
    Exit {
        input: Input::Broken,
        code: 3,
        ..DONE
    },
    Exit {
        input: Input::Broken,
        output: Output::Broken,
        code: 3,
        ..DONE
    },
    Exit {
        output: Output::Broken,
        code: 4,
        ..DONE
    },
    Exit {
        line: b"sigrun --generate 1 --workers 2",
        output: Output::Broken,
        code: 4,
        ..DONE
    },
];

/// Whether the program that is started so exits with the code.
fn exits_so<R: Threads + Wait + Sync + Alloc<A = Global>>(rt: &R, exit: &Exit) -> bool {
    let code = program(&exit.runtime(rt), exit.input, exit.output, exit.errors);
    code == ExitCode::from(exit.code)
}

#[test]
fn each_exit_has_its_code(rt: HostRuntime) {
    for exit in &EXITS {
        assert!(rt; exits_so(&rt, exit), "{:?} {}", exit.line, exit.code);
    }
}
