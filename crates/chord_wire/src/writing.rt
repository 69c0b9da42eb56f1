//! Writing frames, each into one buffer of exactly its length.
ghost use Rattle.std.specs.Prelude.{◌≡◌, ◌≢◌, ◌<◌, ◌^◌, IfOk};
ghost use Rattle.std.specs.Int.{w32, to_be_bytes};
ghost use Rattle.chord_map.specs.Checked.{IsRequest};
ghost use Rattle.chord_wire.specs.Spelling.{IsWireRequest, frame, request_body, version_1, version_2};
ghost use Rattle.chord_wire.specs.Replies.{IsReply, reply_body, fault_body};

use crate::codes::{FAULT, VERSION_1, VERSION_2};
use crate::fault::FaultCode;
use crate::writing::fields::{
    operands_len, operation, put_head, put_operands, put_reply, reply_kind, reply_len,
};
use chord_map::{Reply, Request};
use std::alloc::{AllocError, Global};

pub mod fields;
pub mod sessions;
pub mod writable;

// The bytes of version, operation and number.
const HEAD_BYTES: usize = 10;

const FLOOR_BYTES: usize = 8;

// A buffer for a frame, with the length of its body written.
fn begin(alloc: Global, body: usize) -> Result<Vec<u8>, AllocError>
    requires { body < 2 ^ 32 }
    ensures { IfOk result (λ out. out.items ≡ to_be_bytes w32 body) }
{
    let mut out = Vec::with_capacity(alloc, body + 4)?;
    out.extend_from_slice(&(body as u32).to_be_bytes())?;
    Ok(out)
}

/// The frame of a version 1 request.
pub fn write_request(alloc: Global, number: u64, request: &Request) -> Result<Vec<u8>, AllocError>
    requires { IsRequest request.now }
    ensures { IfOk result (λ out. out.items ≡ frame (request_body (version_1 number request.now))) }
{
    let mut out = begin(alloc, HEAD_BYTES + operands_len(request))?;
    put_head(&mut out, VERSION_1, operation(request), number)?;
    put_operands(&mut out, request)?;
    Ok(out)
}

/// The frame of a version 2 request, whose number is 1 to 16 above the floor.
pub fn write_request_2(
    alloc: Global,
    number: u64,
    floor: u64,
    request: &Request,
) -> Result<Vec<u8>, AllocError>
    requires { IsWireRequest (version_2 number floor request.now) }
    ensures { IfOk result (λ out. out.items ≡ frame (request_body (version_2 number floor request.now))) }
{
    let mut out = begin(alloc, HEAD_BYTES + FLOOR_BYTES + operands_len(request))?;
    put_head(&mut out, VERSION_2, operation(request), number)?;
    out.extend_from_slice(&floor.to_be_bytes())?;
    put_operands(&mut out, request)?;
    Ok(out)
}

/// The frame of a reply.
pub fn write_reply(alloc: Global, number: u64, reply: &Reply) -> Result<Vec<u8>, AllocError>
    requires { IsReply reply.now }
    ensures { IfOk result (λ out. out.items ≡ frame (reply_body number reply.now)) }
{
    let mut out = begin(alloc, HEAD_BYTES + reply_len(reply))?;
    put_head(&mut out, VERSION_1, reply_kind(reply), number)?;
    put_reply(&mut out, reply)?;
    Ok(out)
}

/// The frame of a fault. Readers refuse the frame of Memory.
pub fn write_fault(alloc: Global, number: u64, code: FaultCode) -> Result<Vec<u8>, AllocError>
    requires { code ≢ FaultCode.Memory }
    ensures { IfOk result (λ out. out.items ≡ frame (fault_body number code)) }
{
    let mut out = begin(alloc, HEAD_BYTES + 1)?;
    put_head(&mut out, VERSION_1, FAULT, number)?;
    out.push(code.to_number())?;
    Ok(out)
}
