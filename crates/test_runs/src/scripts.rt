//! The canonical text of the generated script.

ghost use Rattle.std.specs.Prelude.{◌≤◌};

use crate::whole::text_of;
use crate::workers::count;
use sig_script::{Script, generate, print_script};
use std::alloc::{AllocError, Global};

/// What the generated script has before its clients.
const SERVER: &[u8] = br"sigscript 1
turns 20000
process hub
label loop
receive
on {call,R,V} -> answer
end
label answer
send R {R,V}
goto loop
";

/// What a client that makes one call has behind its name.
const CALL: &[u8] = br"
reserve
monitor M @hub reply_demonitor
bind M
send @hub {call,M,1}
receive using M
on {^M,V}
on {'DOWN',^M,process,_,V}
end
";

/// The canonical text of the generated script whose clients make one call each.
const ONE_CALL_EACH: [(&[u8], usize); 17] = [
    (SERVER, 1),
    (b"process c0", 1),
    (CALL, 1),
    (b"process c1", 1),
    (CALL, 1),
    (b"process c2", 1),
    (CALL, 1),
    (b"process c3", 1),
    (CALL, 1),
    (b"process c4", 1),
    (CALL, 1),
    (b"process c5", 1),
    (CALL, 1),
    (b"process c6", 1),
    (CALL, 1),
    (b"process c7", 1),
    (CALL, 1),
];

/// The text of the script.
fn text_of_script(alloc: Global, script: &Script) -> Result<Vec<u8>, AllocError> {
    let mut printed = Vec::new(alloc);
    print_script(script, &mut printed)?;
    Ok(printed)
}

/// The text of the generated script whose clients make so many calls each.
fn generated_text(alloc: Global, calls: u32) -> Result<Vec<u8>, AllocError>
    requires some { 1 ≤ calls }
    requires few { calls ≤ 800 }
{
    let script = generate(alloc, calls)?;
    let printed = text_of_script(alloc, &script);
    drop(script);
    printed
}

/// Whether it is the one above, where each makes one.
fn is_expected(alloc: Global, printed: &[u8]) -> Result<bool, AllocError> {
    let expected = text_of(alloc, &ONE_CALL_EACH)?;
    let is_so = printed == expected.as_slice();
    drop(expected);
    Ok(is_so)
}

/// How many lines the generated script has, where its text is the one above.
fn count_generated_lines(alloc: Global) -> Result<Option<usize>, AllocError> {
    let printed = generated_text(alloc, 1)?;
    let lines = count(printed.as_slice(), b"\n");
    let is_so = is_expected(alloc, printed.as_slice());
    drop(printed);
    Ok(is_so?.then_some(lines))
}

#[test]
fn the_generated_script_has_its_text(rt: HostRuntime) {
    assert!(rt; count_generated_lines(rt.alloc()) == Ok(Some(82)));
    let largest = generated_text(rt.alloc(), 800);
    assert!(rt; largest.is_ok_and(|text| text.len() < 1_000_000));
}
