//! What a node is asked.

/// What a node is asked, whatever its kind: to be switched on or off, to have the fuse of its storage armed, or a call.
#[derive(Clone, Copy)]
pub enum Asked<C> {
    On,
    Off,
    /// Calls of the storage that pass, bytes that are kept, and the byte that fills the rest.
    Cut(u32, u32, u8),
    Call(C),
}
