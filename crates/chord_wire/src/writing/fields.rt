//! The fields of bodies, each added at the end of a buffer.
ghost use Rattle.std.specs.Prelude.{◌≡◌, ◌≤◌, ◌++◌, ◌∷◌, OnOk, length};
ghost use Rattle.std.specs.Int.{w32, w64, to_be_bytes};
ghost use Rattle.chord_map.specs.Checked.{IsRequest, IsKey, IsValue};
ghost use Rattle.chord_wire.specs.Spelling.{operands, operation, key_field, value_field};
ghost use Rattle.chord_wire.specs.Replies.{IsReply, AreValues, reply_kind, reply_fields, values_field};

use crate::codes::{
    CHANGED, INSERT, INSERTED, REMOVE, REMOVED, RETRIEVE, RETRIEVED, SET_FULL, UNCHANGED,
};
use chord_map::{Bytes, Reply, Request};
use std::alloc::AllocError;

pub fn put_head(
    out: &mut Vec<u8>,
    version: u8,
    operation: u8,
    number: u64,
) -> Result<(), AllocError>
    ensures { OnOk result (out.new.items ≡ out.old.items ++ version ∷ operation ∷ to_be_bytes w64 number) }
{
    out.push(version)?;
    out.push(operation)?;
    out.extend_from_slice(&number.to_be_bytes())
}

fn put_key(out: &mut Vec<u8>, key: &Bytes) -> Result<(), AllocError>
    requires { IsKey key.now }
    ensures { OnOk result (out.new.items ≡ out.old.items ++ key_field key.now) }
{
    let key = key.as_slice();
    out.push(key.len() as u8)?;
    out.extend_from_slice(key)
}

fn put_value(out: &mut Vec<u8>, value: &Bytes) -> Result<(), AllocError>
    requires { IsValue value.now }
    ensures { OnOk result (out.new.items ≡ out.old.items ++ value_field value.now) }
{
    let value = value.as_slice();
    out.extend_from_slice(&(value.len() as u16).to_be_bytes())?;
    out.extend_from_slice(value)
}

pub fn operation(request: &Request) -> u8
    ensures { result ≡ operation request.now }
{
    match request {
        Request::Insert { .. } => INSERT,
        Request::Retrieve { .. } => RETRIEVE,
        Request::Remove { .. } => REMOVE,
    }
}

/// The length of the key and value fields.
pub fn operands_len(request: &Request) -> usize
    requires { IsRequest request.now }
    ensures count { result ≡ length (operands request.now) }
    ensures bound { result ≤ 4354 }
{
    match request {
        Request::Insert { key, value } => 3 + key.as_slice().len() + value.as_slice().len(),
        Request::Retrieve { key } => 1 + key.as_slice().len(),
        Request::Remove { key, value } => 3 + key.as_slice().len() + value.as_slice().len(),
    }
}

pub fn put_operands(out: &mut Vec<u8>, request: &Request) -> Result<(), AllocError>
    requires { IsRequest request.now }
    ensures { OnOk result (out.new.items ≡ out.old.items ++ operands request.now) }
{
    match request {
        Request::Insert { key, value } => {
            put_key(out, key)?;
            put_value(out, value)
        }
        Request::Retrieve { key } => put_key(out, key),
        Request::Remove { key, value } => {
            put_key(out, key)?;
            put_value(out, value)
        }
    }
}

pub fn reply_kind(reply: &Reply) -> u8
    ensures { result ≡ reply_kind reply.now }
{
    match reply {
        Reply::Added | Reply::Present | Reply::SetFull => INSERTED,
        Reply::Values(_) => RETRIEVED,
        Reply::Removed | Reply::Absent => REMOVED,
    }
}

fn values_len(values: &[Bytes]) -> usize
    requires { AreValues values.now }
    ensures count { result ≡ length (values_field values.now) }
    ensures bound { result ≤ 4098004 }
{
    let mut len = 4;
    for value in values {
        len += 2 + value.as_slice().len();
    }
    len
}

/// The length of the status or the values.
pub fn reply_len(reply: &Reply) -> usize
    requires { IsReply reply.now }
    ensures count { result ≡ length (reply_fields reply.now) }
    ensures bound { result ≤ 4098004 }
{
    match reply {
        Reply::Values(values) => values_len(values.as_slice()),
        _ => 1,
    }
}

fn put_values(out: &mut Vec<u8>, values: &[Bytes]) -> Result<(), AllocError>
    requires { AreValues values.now }
    ensures { OnOk result (out.new.items ≡ out.old.items ++ values_field values.now) }
{
    out.extend_from_slice(&(values.len() as u32).to_be_bytes())?;
    for value in values {
        put_value(out, value)?;
    }
    Ok(())
}

pub fn put_reply(out: &mut Vec<u8>, reply: &Reply) -> Result<(), AllocError>
    requires { IsReply reply.now }
    ensures { OnOk result (out.new.items ≡ out.old.items ++ reply_fields reply.now) }
{
    match reply {
        Reply::Added => Ok(out.push(CHANGED)?),
        Reply::Present => Ok(out.push(UNCHANGED)?),
        Reply::SetFull => Ok(out.push(SET_FULL)?),
        Reply::Values(values) => put_values(out, values.as_slice()),
        Reply::Removed => Ok(out.push(CHANGED)?),
        Reply::Absent => Ok(out.push(UNCHANGED)?),
    }
}
