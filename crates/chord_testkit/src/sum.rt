//! Checksums of values.

use std::fmt::{self, Debug, Write};

#[derive(Drop)]
struct Sum {
    value: u64,
}

impl Write for Sum {
    fn write_str(&mut self, text: &str) -> fmt::Result {
        for byte in text.as_bytes() {
            self.value = (self.value ^ u64::from(*byte)).wrapping_mul(0x100000001b3);
        }
        Ok(())
    }
}

/// A checksum of all that the `Debug` of a value prints. It takes no memory.
pub fn sum_of<T: Debug>(value: &T) -> u64 {
    let mut sum = Sum {
        value: 0xcbf29ce484222325,
    };
    let _ = write!(sum, "{value:?}");
    sum.value
}
