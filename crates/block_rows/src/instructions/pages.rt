// The pages of a small program.
use std::alloc::{AllocError, Global};
use vax_form::{PageRange, Pages};

/// Where its code stands.
pub const CODE: u32 = 0x200;

/// Where the page is that it may write.
pub const DATA: u32 = 0x1000;

/// A page of code and a page that may be written.
pub fn pages_with(alloc: Global, code: &[u8; 512]) -> Result<Pages, AllocError> {
    let ranges = vec![in alloc;
        PageRange {
            first: CODE / 512,
            count: 1,
            writable: false,
            place: 0
        },
        PageRange {
            first: DATA / 512,
            count: 1,
            writable: true,
            place: 0
        },
    ]?;
    Ok(Pages {
        ranges,
        code: code.to_vec(alloc)?,
    })
}
