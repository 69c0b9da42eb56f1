//! The frames that end a connection.
ghost use Rattle.std.specs.Prelude.{◌≡◌, ◌≢◌};
ghost use Rattle.chord_serve.specs.Ends.{IsStop};
ghost use Rattle.chord_serve.specs.Served.{is_other, TellsFault, TellsClosed};

use crate::due::Due;
use crate::served::Served;
use chord_wire::{FaultCode, WireFault, write_closed, write_fault};
use std::alloc::Global;

// A request of another version than the first one.
pub(crate) const BAD_VERSION: WireFault = WireFault {
    code: FaultCode::BadVersion,
    number: 0,
};

// An open behind the first frame, or a close without a session.
pub(crate) const OUT_OF_PLACE: WireFault = WireFault {
    code: FaultCode::OutOfPlace,
    number: 0,
};

// Ends a session with a fault, whose frame is added to the output.
pub(crate) fn refuse(alloc: Global, due: &mut Due, fault: WireFault) -> Served
    requires { fault.code ≢ FaultCode.Memory }
    ensures due { TellsFault result fault due.old due.new }
    ensures stop { IsStop result }
{
    match write_fault(alloc, fault.number, fault.code) {
        Err(_) => Served::Memory,
        Ok(frame) => match due.add(&frame) {
            Ok(()) => Served::Malformed(fault.code),
            Err(_) => Served::Memory,
        },
    }
}

// Whether the version differs from the first one.
pub(crate) fn is_other(first: Option<u8>, version: u8) -> bool
    ensures { result ≡ is_other first version }
{
    match first {
        None => false,
        Some(first) => first != version,
    }
}

// Ends a session that its client closed; the frame that says so is added to the output.
pub(crate) fn close(alloc: Global, due: &mut Due) -> Served
    ensures due { TellsClosed result due.old due.new }
    ensures stop { IsStop result }
{
    match write_closed(alloc) {
        Err(_) => Served::Memory,
        Ok(frame) => match due.add(&frame) {
            Ok(()) => Served::Quit,
            Err(_) => Served::Memory,
        },
    }
}
