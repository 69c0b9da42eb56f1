//! A stream of requests.
ghost use Rattle.std.specs.Prelude.{◌≡◌, ◌++◌, ◌⊎◌, List, ℕ, IfOk, IfSome};
ghost use Rattle.chord_wire.specs.Fault.{out_of_memory};
ghost use Rattle.chord_wire.specs.Spelling.{IsBytes, IsWireRequest, frame, request_body};
ghost use Rattle.chord_wire.specs.Reading.{TakesNext, FindsNext, next_request};
ghost use Rattle.chord_wire.specs.declared.request.WireRequest.{WireRequest};

use crate::codes::{LEAST_REQUEST, MOST_REQUEST};
use crate::fault::WireFault;
use crate::reader::{Framed, Reader};
use crate::reading::frame::body_at;
use crate::reading::request_body::request_in;
use crate::request::WireRequest;
use std::alloc::Global;

/// A stream of requests, in pieces of any length.
pub type Frames = Reader<WireRequest>;

// The next request, and the length of its frame.
#[tactic(auto, unfolding(crate::specs::Reading::next_request))]
fn next_request(alloc: Global, bytes: &[u8]) -> Result<Option<(WireRequest, usize)>, WireFault>
    ensures bytes { IsBytes bytes.now }
    ensures exact { FindsNext next_request bytes.now result }
{
    let Some((body, rest)) = body_at(LEAST_REQUEST, MOST_REQUEST, bytes)? else {
        return Ok(None);
    };
    let view = request_in(body)?;
    let request = WireRequest {
        version: view.version,
        number: view.number,
        floor: view.floor,
        request: view.request.to_request(alloc)?,
    };
    Ok(Some((request, bytes.len() - rest.len())))
}

impl Framed for WireRequest {
    ghost next = { next_request };

    fn next_in(alloc: Global, bytes: &[u8]) -> Result<Option<(WireRequest, usize)>, WireFault> {
        next_request(alloc, bytes)
    }
}

impl Reader<WireRequest> {
    /// The next request, if all of its frame was fed.
    pub fn next(&mut self) -> Result<Option<WireRequest>, WireFault>
        // A request comes from its one spelling, and its frame is consumed.
        ensures found { IfOk result (λ next. IfSome next (λ r. IsWireRequest r × (self.old ≡ frame (request_body r) ++ self.new))) }
        // A request that the bytes spell is found, unless memory runs out.
        ensures only { (r : WireRequest) (rest : List ℕ) → IsWireRequest r → self.old ≡ frame (request_body r) ++ rest
            → (result ≡ Ok (Some r)) ⊎ (result ≡ Err out_of_memory) }
        // Which fault it is, and when more bytes must come.
        ensures exact { TakesNext next_request self.old result self.new }
    {
        self.take()
    }
}
