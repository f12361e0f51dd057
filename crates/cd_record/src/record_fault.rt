use cd_cell::CellFault;
use thiserror::Error;

/// What keeps bytes from being a record. The fields are read in order, and the first at fault decides; the end, the
/// face as a whole, and the mask of its first descriptor come last.
#[derive(Clone, Copy, Debug, PartialEq, Eq, Error)]
pub enum RecordFault {
    /// The first byte is there, and is neither 1 nor 2.
    #[error("a record of version {value}")]
    Version { value: u8 },
    /// A field runs past the end.
    #[error("the record is cut")]
    Cut,
    /// Bytes stand behind the last field.
    #[error("bytes stand behind the record")]
    Extra,
    /// The count is 0 or over the greatest, a descriptor or a child's mask is none, the data lack their completion, or the mask that the
    /// first descriptor states isn't the cell's.
    #[error("a field of the record is outside its range")]
    Form,
    /// The cell isn't well-formed.
    #[error("a record of no cell: {fault}")]
    Cell { fault: CellFault },
}
