use cd_boc_write::Shape;

/// The frame of a bag as its text has it.
#[derive(Drop)]
pub(crate) struct FrameText<'a> {
    pub shape: Shape,
    pub cells: u32,
    /// The numbers of the roots.
    pub roots: Vec<u32>,
    /// The ends of the cells, `off_bytes` each, if the shape has an index.
    pub index: &'a [u8],
    pub cell_data: &'a [u8],
}
