use std::alloc::{AllocError, Global};

/// What a call is given beside its input.
#[derive(Clone, Copy)]
pub struct Setting<'w, 'f> {
    /// The arguments.
    pub words: &'w [&'w str],
    /// How many bytes of the input come at a read.
    pub piece: usize,
    /// The most bytes that a write takes.
    pub taken: usize,
    /// The numbers of the reads that fail, from 1.
    pub failing_reads: &'f [u64],
    /// The numbers of the writes that fail, from 1.
    pub failing_writes: &'f [u64],
    /// How many bytes may be told.
    pub room: usize,
}

/// No arguments, and streams that don't fail.
pub const PLAIN: Setting<'static, 'static> = Setting {
    words: &[],
    piece: 100,
    taken: 10,
    failing_reads: &[],
    failing_writes: &[],
    room: 100,
};

/// The texts of these words.
///
/// # Errors
///
/// [`AllocError`] where memory is wanting.
pub fn texts_of(alloc: Global, list: &[&str]) -> Result<Vec<String>, AllocError> {
    let mut words = Vec::new(alloc);
    for word in list {
        words.push(String::from_str(alloc, word)?)?;
    }
    Ok(words)
}
