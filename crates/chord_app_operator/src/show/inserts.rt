//! Pairs as the inserts that put them in.
ghost use Rattle.std.specs.Prelude.{◌≡◌, ◌++◌, string_bytes, IfOk, OnOk};
ghost use Rattle.chord_app_operator.specs.Lines.{bytes_word, pair_line, pair_lines};

use crate::operator::Pair;
use std::alloc::{AllocError, Global};

// Bytes as a word, behind a space.
fn add_word(alloc: Global, text: &mut String, bytes: &[u8]) -> Result<(), AllocError>
    ensures { OnOk result (string_bytes text.new ≡ string_bytes text.old ++ bytes_word bytes.now) }
{
    if bytes.is_empty() {
        return text.push_str(" x:-");
    }
    let digits = hex::encode(alloc, bytes)?;
    text.push_str(" x:")?;
    text.push_str(&digits)
}

fn add_line(alloc: Global, text: &mut String, pair: &Pair) -> Result<(), AllocError>
    ensures { OnOk result (string_bytes text.new ≡ string_bytes text.old ++ pair_line pair.now) }
{
    text.push_str("insert")?;
    add_word(alloc, text, &pair.key)?;
    add_word(alloc, text, &pair.value)?;
    text.push_str("\n")
}

/// A line for each pair, in order.
pub fn pair_lines(alloc: Global, pairs: &[Pair]) -> Result<String, AllocError>
    ensures { IfOk result (λ text. string_bytes text ≡ pair_lines pairs.now) }
{
    let mut text = String::new(alloc);
    for pair in pairs {
        add_line(alloc, &mut text, pair)?;
    }
    Ok(text)
}
