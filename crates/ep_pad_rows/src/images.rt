//! The images that are asked for.

use anyhow::Result;
use ep_outside::Image;
use std::alloc::Global;

/// `old`, `new`, or a byte that fills what isn't synced; the length is the least or the greatest.
pub fn image(alloc: Global, word: &str, length: &str) -> Result<Image> {
    match word {
        "old" => Ok(Image::Old),
        "new" => Ok(Image::New),
        byte => Ok(Image::Torn {
            length: if length == "least" { 0 } else { u64::MAX },
            fill: hex::decode(alloc, byte)?,
        }),
    }
}
