use thiserror::Error;

/// What keeps a face from being that of a well-formed cell. Where several hold, the first is given.
#[derive(Clone, Copy, Debug, PartialEq, Eq, Error)]
pub enum CellFault {
    /// An exotic cell of fewer than 8 bits, so without a type.
    #[error("an exotic cell of fewer than 8 bits")]
    Short,
    /// The type of an exotic cell isn't 1 to 4.
    #[error("an exotic cell of type {value}")]
    KindByte { value: u8 },
    /// An exotic cell without its kind's number of references.
    #[error("an exotic cell with {real} references")]
    Refs { real: u8 },
    /// The mask of a pruned branch isn't 1 to 7.
    #[error("a pruned branch of mask {value}")]
    PrunedMask { value: u8 },
    /// An exotic cell without its kind's number of bits.
    #[error("an exotic cell of {real} bits")]
    Length { real: u16 },
    /// A Merkle cell states another hash at level 0 than that of the child in this place.
    #[error("a Merkle cell states another hash than child {place} has")]
    MerkleHash { place: u8 },
    /// A Merkle cell states another depth at level 0 than that of the child in this place.
    #[error("a Merkle cell states another depth than child {place} has")]
    MerkleDepth { place: u8 },
    /// The greatest depth over the four levels, where it is over 1024.
    #[error("a cell of depth {depth}")]
    DepthBig { depth: u32 },
}
