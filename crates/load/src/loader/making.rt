// A loader made.

use crate::loader::Loader;
use plan::{MOST_BYTES, Tables};
use std::alloc::{AllocError, Global};

impl Loader {
    // The one place where loading asks for memory.
    pub fn new(heap: Global) -> Result<Loader, AllocError> {
        let tables = Tables::reserved(heap)?;
        let text = Vec::with_capacity(heap, MOST_BYTES)?;
        Ok(Loader { tables, text })
    }
}
