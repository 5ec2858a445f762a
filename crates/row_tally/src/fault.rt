// What is wrong with a row that can't be read.
use std::alloc::AllocError;
use thiserror::Error;

/// Why a row can't be read.
#[derive(Debug, Drop, Error)]
pub enum RowFault {
    /// The row has another number of fields.
    #[error("another number of fields")]
    OtherCount,
    /// A number has a digit that is none, or is too large.
    #[error("no number of this size")]
    NoNumber,
    /// Bytes have an odd number of digits, or a digit that is none.
    #[error("no bytes")]
    NoBytes,
    #[error(transparent)]
    Memory(#[from(alloc)] AllocError),
}
