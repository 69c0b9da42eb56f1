//! Arrays of bulk strings and of integers.
ghost use Rattle.std.specs.Prelude.{◌≡◌};
ghost use Rattle.chord_resp.specs.Answers.{Joins, Grows, bulks, integers};

use crate::writing::lines::{put_bulk, put_count, put_integer};
use chord_map::Bytes;
use std::alloc::AllocError;

fn try_bulks(out: &mut Vec<u8>, items: &[Bytes]) -> Result<(), AllocError>
    ensures { Grows result out.old.items out.new.items (bulks items.now) }
{
    put_count(out, items.len())?;
    for item in items {
        put_bulk(out, item.as_slice())?;
    }
    Ok(())
}

/// Adds an array of bulk strings.
pub fn put_bulks(out: &mut Vec<u8>, items: &[Bytes]) -> Result<(), AllocError>
    ensures { Joins result out.old.items out.new.items (bulks items.now) }
{
    let start = out.len();
    let done = try_bulks(out, items);
    if done.is_err() {
        out.truncate(start);
    }
    done
}

fn try_integers(out: &mut Vec<u8>, items: &[u64]) -> Result<(), AllocError>
    ensures { Grows result out.old.items out.new.items (integers items.now) }
{
    put_count(out, items.len())?;
    for item in items {
        put_integer(out, *item)?;
    }
    Ok(())
}

/// Adds an array of integers.
pub fn put_integers(out: &mut Vec<u8>, items: &[u64]) -> Result<(), AllocError>
    ensures { Joins result out.old.items out.new.items (integers items.now) }
{
    let start = out.len();
    let done = try_integers(out, items);
    if done.is_err() {
        out.truncate(start);
    }
    done
}
