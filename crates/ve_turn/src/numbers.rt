//! The numbers of a seat, as the program keeps them.
#[derive(Clone, Copy)]
pub(crate) struct Numbers {
    /// The number of seats of the turnstile.
    pub(crate) seats: u32,
    pub(crate) seat: u32,
    pub(crate) left: u32,
}
