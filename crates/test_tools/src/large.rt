//! Inputs of as many bytes as there may be, and of one more.

ghost use Rattle.std.specs.Prelude.{None};

use sig_base::{End, Failed, MemorySink, Source};
use sig_script::FaultKind;
use sig_tool::{MOST_INPUT, ToolStatus, tool};
use std::alloc::{AllocError, Global};
use test_shared::texts_of;

/// A source of so many bytes: of those that stand already where they are to be placed.
#[derive(Drop)]
struct Bytes {
    left: usize,
    end: End,
}

impl Source for Bytes {
    ghost left = { λ _. None };

    ghost faults = { λ _. 0 };

    ghost end = { λ s. s.end };

    fn read(&mut self, into: &mut [u8]) -> Result<usize, Failed> {
        let n = self.left.min(into.len());
        self.left -= n;
        self.end = self.end.after(n == 0);
        Ok(n)
    }
}

/// What is answered and told of an input of so many bytes, if nothing is written.
fn answered(alloc: Global, count: usize, told: &[u8]) -> Result<Option<ToolStatus>, AllocError> {
    let words = texts_of(alloc, &["check"])?;
    let mut out = MemorySink::with_room(alloc, 10)?;
    let mut err = MemorySink::with_room(alloc, 100)?;
    let status = tool(
        alloc,
        words.as_slice(),
        &mut Bytes {
            left: count,
            end: End::Ahead,
        },
        &mut out,
        &mut err,
    );
    if out.held().is_empty() && err.held() == told {
        Ok(Some(status))
    } else {
        Ok(None)
    }
}

#[test]
fn an_input_may_have_so_many_bytes(rt: HostRuntime) {
    let script_too_long = ToolStatus::BadScript {
        line: 0,
        kind: FaultKind::TooLong,
    };
    let most = answered(rt.alloc(), MOST_INPUT, b"sigtool: line 0: too_long\n");
    assert!(rt; most == Ok(Some(script_too_long)), "{most:?}");
    let more = answered(
        rt.alloc(),
        MOST_INPUT.saturating_add(1),
        b"sigtool: too long\n",
    );
    assert!(rt; more == Ok(Some(ToolStatus::TooLong)), "{more:?}");
}
