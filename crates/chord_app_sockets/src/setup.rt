//! What a server is started with.
ghost use Rattle.std.specs.Prelude.{◌≡◌, IfErr};
ghost use Rattle.std.specs.declared.io.ErrorKind.{ErrorKind};

use crate::doors::Doors;
use crate::process_files::ProcessFiles;
use chord_app_journal::{OpenedJournal, SyncRule};
use chord_app_plan::Plan;
use chord_app_text::{Fault, Finish};
use chord_live_types::Settings;
use std::alloc::Global;
use std::hash::RandomState;
use std::net::{Ipv4Addr, Net, TcpListener};

/// Where operators connect.
#[derive(Clone, Copy)]
pub struct OperatorPort<'a> {
    pub listener: &'a TcpListener,
    /// The names of fields that operators send are hashed by these.
    pub keys: RandomState,
    /// None where the system tells nothing of the process.
    pub process: Option<&'a ProcessFiles>,
}

/// The journal of a server.
#[derive(Clone, Copy)]
pub struct JournalSetup<'a> {
    pub opened: &'a OpenedJournal,
    pub rule: SyncRule,
}

/// A plan, the settings of the ring, where clients and operators connect, and where to log how
/// connections end.
#[derive_where(Clone, Copy)]
pub struct ServerSetup<'a, L> {
    pub alloc: Global,
    pub plan: &'a Plan,
    /// The plan's, but for a server that stays and was given other numbers of nodes and callers.
    pub settings: Settings,
    pub doors: Doors<'a>,
    /// None if there is no operator. Only a server that stays has one.
    pub operator: Option<OperatorPort<'a>>,
    /// None if there is no journal.
    pub journal: Option<JournalSetup<'a>>,
    pub notes: &'a L,
}

/// Listens at a port of 127.0.0.1, if it is free. At port 0 the system picks one that is.
pub fn listen<R: Net>(rt: &R, port: u16) -> Result<R::Listener, Finish>
    ensures { IfErr result (λ finish. (reason : ErrorKind) × (finish ≡ Finish.Fault (Fault.Listen port reason))) }
{
    match TcpListener::bind(rt, (Ipv4Addr::LOCALHOST, port)) {
        Ok(listener) => Ok(listener),
        Err(error) => {
            let reason = error.kind();
            Err(Finish::Fault(Fault::Listen { port, reason }))
        }
    }
}
