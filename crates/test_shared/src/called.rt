use crate::program::Program;
use crate::setting::{Setting, texts_of};
use sig_base::{FailingSink, FailingSource, MemorySink};
use std::alloc::{AllocError, Global};

/// More bytes than a program writes of any input of a test.
const ROOM: usize = 1_000_000;

/// What a call of the program answers, writes and tells.
pub type Ending<'a, P> = (<P as Program>::Status, &'a [u8], &'a [u8]);

/// A call of the program: its answer, what is left of its input, and what it has written and told.
#[derive(Drop)]
pub struct Called<P: Program> {
    /// Its answer.
    pub status: P::Status,
    /// What is left of its input.
    pub input: FailingSource,
    /// What it has written.
    pub out: FailingSink,
    /// What it has told.
    pub err: MemorySink,
}

/// The input of a call, and where it writes and tells.
///
/// # Errors
///
/// [`AllocError`] where memory is wanting.
pub fn streams_of(
    alloc: Global,
    setting: &Setting,
    input: Vec<u8>,
) -> Result<(FailingSource, FailingSink, MemorySink), AllocError> {
    let reads = Vec::from_slice(alloc, setting.failing_reads)?;
    let input = FailingSource::new(input, setting.piece.max(1), reads);
    let writes = Vec::from_slice(alloc, setting.failing_writes)?;
    let out = FailingSink::with_room(alloc, ROOM, setting.taken.max(1), writes)?;
    let err = MemorySink::with_room(alloc, setting.room)?;
    Ok((input, out, err))
}

/// The bytes of the script and of the record, one behind the other.
fn joined(alloc: Global, script: &[u8], told: &[u8]) -> Result<Vec<u8>, AllocError> {
    let mut bytes = Vec::from_slice(alloc, script)?;
    bytes.extend_from_slice(told)?;
    Ok(bytes)
}

impl<P: Program> Called<P> {
    /// The call on this script with this record behind it.
    ///
    /// # Errors
    ///
    /// [`AllocError`] where memory is wanting for its streams.
    pub fn of(
        alloc: Global,
        setting: &Setting,
        script: &[u8],
        told: &[u8],
    ) -> Result<Called<P>, AllocError> {
        let words = texts_of(alloc, setting.words)?;
        let given = joined(alloc, script, told)?;
        let (mut input, mut out, mut err) = streams_of(alloc, setting, given)?;
        let status = P::call(alloc, words.as_slice(), &mut input, &mut out, &mut err);
        Ok(Called {
            status,
            input,
            out,
            err,
        })
    }

    /// Whether the call on this script with this record behind it answers, writes and tells so.
    ///
    /// # Errors
    ///
    /// [`AllocError`] where memory is wanting for its streams.
    pub fn ends_so(
        alloc: Global,
        setting: &Setting,
        script: &[u8],
        told: &[u8],
        ending: Ending<P>,
    ) -> Result<bool, AllocError> {
        let called = Called::<P>::of(alloc, setting, script, told)?;
        let is_so = called.is(ending.0, ending.1, ending.2);
        drop(called);
        Ok(is_so)
    }

    /// Whether it has answered, written and told so.
    pub fn is(&self, status: P::Status, written: &[u8], told: &[u8]) -> bool {
        self.status == status && self.out.held() == written && self.err.held() == told
    }
}
