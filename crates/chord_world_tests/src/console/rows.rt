//! Scripts line by line.

use super::{Ran, runs};
use chord_app_text::Finish;
use chord_app_world::add_store;
use chord_store::CappedStore;
use std::alloc::{AllocError, Global};

/// A line of the console, and the line that it writes.
pub type Row = (&'static str, &'static str);

/// Three stores with room for any number of pairs.
pub const THREE: &[u64] = &[u64::MAX, u64::MAX, u64::MAX];

/// Runs the lines over capped stores, one with each of these limits.
pub fn over(alloc: Global, limits: &[u64], script: &str, wanted: &str) -> Result<Ran, AllocError> {
    let mut stores = Vec::new(alloc);
    for limit in limits {
        add_store(&mut stores, CappedStore::new(alloc, *limit))?;
    }
    Ok(runs(alloc, stores, script, wanted))
}

/// Runs the first row, the first two, and so on. Gives the last row of the first run that writes
/// other lines.
pub fn first_wrong(alloc: Global, limits: &[u64], rows: &[Row]) -> Result<Option<Row>, AllocError> {
    let mut script = String::new(alloc);
    let mut wanted = String::new(alloc);
    for (line, writes) in rows {
        script.push_str(line)?;
        script.push('\n')?;
        wanted.push_str(writes)?;
        wanted.push('\n')?;
        if over(alloc, limits, script.as_str(), wanted.as_str())? != (Finish::Done, true) {
            return Ok(Some((*line, *writes)));
        }
    }
    Ok(None)
}
