/// The way of a put. (The runtime's notes on parallel signal sending: the outer queue, or one of 64
/// buffers.)
#[derive(Clone, Copy, PartialEq, Eq)]
pub enum Via {
    /// Into the outer list.
    Outer,
    /// Into this buffer, from 0 to 63.
    Buffer(u8),
}
