/// The rows and columns of slots.
#[derive(Clone, Copy)]
pub struct Grid {
    pub rows: u32,
    pub cols: u32,
}
