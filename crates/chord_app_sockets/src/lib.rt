//! What a server needs besides its ring: where it listens ([`ServerSetup`], [`Doors`],
//! [`OperatorPort`]), the open connections ([`Clients`]), how each ends ([`Ended`]), the lines that
//! it writes ([`Lines`]), what it does at most once a second ([`OncePerSecond`]), when it ends
//! ([`Until`], [`Stop`]), and what its handle may do ([`Host`]).
#![tactic(auto)]

mod clients;
mod counted;
mod doors;
mod ended;
mod host;
mod lines;
mod once_per_second;
mod process_files;
mod setup;
mod stop;
mod until;

pub use clients::Clients;
pub use counted::CountedStream;
pub use doors::{Door, Doors, Protocol};
pub use ended::Ended;
pub use host::Host;
pub use lines::Lines;
pub use once_per_second::OncePerSecond;
pub use process_files::ProcessFiles;
pub use setup::{JournalSetup, OperatorPort, ServerSetup, listen};
pub use stop::Stop;
pub use until::{ClientLimits, Until};
