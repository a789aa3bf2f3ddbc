//! One call of each growing call with memory to spare.

use crate::shared::passes;
use sig_lists::*;
use std::alloc::AllocError;

/// Whether the empty sequence grows by 7, 8, 9 and 10, and then 10 leaves, and 9 is the last, at the
/// place 2.
fn grows_and_shrinks(numbers: &mut Sequence<u64>) -> Result<bool, AllocError> {
    let mut is_so = numbers.is_empty();
    for number in &[7u64, 8, 9] {
        is_so &= matches!(numbers.push(*number), Pushed::Added);
    }
    numbers.add(10)?;
    is_so &= numbers.as_slice() == [7u64, 8, 9, 10].as_slice();
    let last = numbers.pop() == Some(10);
    Ok(is_so && last && numbers.get(2).copied() == Some(9) && numbers.get(3).is_none())
}

#[test]
fn a_sequence_grows_and_shrinks_at_its_end(rt: HostRuntime) {
    let mut numbers = Sequence::new(rt.alloc());
    passes(&rt, grows_and_shrinks(&mut numbers));
}
