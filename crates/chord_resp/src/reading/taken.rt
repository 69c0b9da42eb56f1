//! Reading bytes up to the end of a command.
ghost use Rattle.std.specs.Prelude.{◌≡◌, ◌≤◌, length, drop};
ghost use Rattle.chord_resp.specs.Reading.{TakesNext};

use crate::reading::machine::Machine;
use crate::reading::read_error::ReadError;
use crate::reading::words::Words;

/// How many bytes were read, and what was found.
#[derive(Debug, Drop)]
pub struct Taken {
    pub count: usize,
    pub found: Result<Option<Words>, ReadError>,
}

/// Reads the bytes until a command ends. The byte at which an error comes is not read.
pub fn take_from(machine: &mut Machine, bytes: &[u8]) -> Taken
    ensures within { result.count ≤ length bytes.now }
    ensures found { TakesNext (record { state = machine.old; bytes = bytes.now }) result.found (record { state = machine.new; bytes = drop result.count bytes.now }) }
{
    let mut count = 0;
    while count < bytes.len() {
        match machine.skim(&bytes[count..]) {
            Ok(0) => {}
            Ok(skimmed) => {
                count += skimmed;
                continue;
            }
            Err(_) => {
                return Taken {
                    count,
                    found: Err(ReadError::Memory),
                };
            }
        }
        match machine.step(bytes[count]) {
            Ok(None) => count += 1,
            Ok(Some(words)) => {
                return Taken {
                    count: count + 1,
                    found: Ok(Some(words)),
                };
            }
            Err(error) => {
                return Taken {
                    count,
                    found: Err(error),
                };
            }
        }
    }
    Taken {
        count,
        found: Ok(None),
    }
}
