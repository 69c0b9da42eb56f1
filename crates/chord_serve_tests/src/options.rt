//! Words before the bytes of a line, which may be left out.

use chord_app_text::{GrammarFault, LineFault, Words};
use chord_serve::ReadSize;
use chord_serve_testkit::{FREE, Limits};
use chord_testkit::{Text, number_after, two_numbers};

/// Whether this word comes next, which is read then.
pub fn is_next(words: &mut Words, name: &str) -> bool {
    let mut ahead = *words;
    let is_it = matches!(ahead.word(), Ok(word) if word == name);
    if is_it {
        *words = ahead;
    }
    is_it
}

/// The limits of a device: `reads 7x3` are at most 7 bytes a call, and three calls that do not
/// fail.
pub fn limits_after(words: &mut Words, name: &str) -> Result<Limits, LineFault> {
    if !is_next(words, name) {
        return Ok(FREE);
    }
    let (step, calls) = two_numbers(words, "x")?;
    let step = step as usize;
    Ok(Limits { step, calls })
}

/// How a connection is read and written.
#[derive(Clone, Copy)]
pub struct Devices {
    pub reads: Limits,
    pub writes: Limits,
    pub size: ReadSize,
    pub turns: u64,
}

/// What limits a connection: `reads 7x3`, `writes 7x3`, `large` reads and `turns 5`, in this order.
pub fn devices_after(words: &mut Words) -> Result<Devices, LineFault> {
    let reads = limits_after(words, "reads")?;
    let writes = limits_after(words, "writes")?;
    let size = if is_next(words, "large") {
        ReadSize::Large
    } else {
        ReadSize::Small
    };
    let turns = number_after(words, "turns", 100)?;
    Ok(Devices {
        reads,
        writes,
        size,
        turns,
    })
}

/// The first and the last length of those behind `cut`, as `cut 1..18`.
pub fn lengths(words: &mut Words) -> Result<Option<(u64, u64)>, LineFault> {
    if is_next(words, "cut") {
        Ok(Some(two_numbers(words, "..")?))
    } else {
        Ok(None)
    }
}

/// Notes what came at a length, which must be what came at the others; else tells it.
pub fn differs(all: &mut Option<Text>, len: u64, came: Text) -> Option<Text> {
    if all.is_some_and(|before| before.as_str() != came.as_str()) {
        let came = came.as_str();
        return Some(Text::of(format_args!("at {len}: {came}")));
    }
    *all = Some(came);
    None
}

/// The first bytes.
pub fn front(bytes: &[u8], len: u64) -> Result<&[u8], LineFault> {
    match bytes.get(..len as usize) {
        Some(front) => Ok(front),
        None => Err(GrammarFault::NoLine.into()),
    }
}
