/// An id that died, and the seat that let it die. The table has its forward.
#[derive(Clone, Copy)]
pub(crate) struct Entry {
    pub(crate) seat: u32,
    pub(crate) id: u32,
}
