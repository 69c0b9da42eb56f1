//! A server that has a journal: what one answered, the next one knows.

use chord_app_journal::{SyncRule, open_journal};
use chord_app_plan::Plan;
use chord_app_serve::stay;
use chord_app_serve_testkit::{Handle, WAITS, bound, expect, expect_end, plan_with, two_stores};
use chord_app_sockets::{Doors, Host, JournalSetup, ServerSetup};
use chord_app_text::Finish;
use log::sink::Discard;
use std::alloc::Global;
use std::fs::{self, File, Files};
use std::io::{self, PipeReader, Write};
use std::net::{Net, SocketAddr, TcpListener, TcpStream};
use std::path::PathBuf;
use std::rt::Env;
use std::{env, process, thread};

/// What a client sends, and all that it is told.
#[derive(Clone, Copy)]
struct Talk {
    sent: &'static [u8],
    told: &'static [u8],
}

/// Values are added and one is removed.
const FIRST: Talk = Talk {
    sent: b"SADD a x y\r\nSADD b z\r\nSREM a x x\r\nSHUTDOWN\r\n",
    told: b":2\r\n:1\r\n:1\r\n",
};

/// They are as they were left. One more is added.
const SECOND: Talk = Talk {
    sent: b"SMEMBERS a\r\nSMEMBERS b\r\nSADD a y w\r\nSHUTDOWN\r\n",
    told: b"*1\r\n$1\r\ny\r\n*1\r\n$1\r\nz\r\n:1\r\n",
};

/// What the two servers added and removed, a command each.
const CHANGES: &[u8] = b"*3\r\n$4\r\nSADD\r\n$1\r\na\r\n$1\r\nx\r\n\
*3\r\n$4\r\nSADD\r\n$1\r\na\r\n$1\r\ny\r\n\
*3\r\n$4\r\nSADD\r\n$1\r\nb\r\n$1\r\nz\r\n\
*3\r\n$4\r\nSREM\r\n$1\r\na\r\n$1\r\nx\r\n\
*3\r\n$4\r\nSADD\r\n$1\r\na\r\n$1\r\nw\r\n";

/// Sends all at once, and expects what is due and then the end.
fn converse<R: Net>(rt: &R, alloc: Global, redis: SocketAddr, talk: Talk) -> io::Result<()> {
    let mut stream = TcpStream::connect(rt, redis)?;
    stream.write_all(talk.sent)?;
    expect(alloc, &mut stream, talk.told)?;
    expect_end(&mut stream)
}

/// Serves over a journal until a client shuts it down. Says how it ended.
fn stay_over_journal<'a, R: Host>(
    rt: &R,
    alloc: Global,
    plan: &'a Plan,
    listener: &'a TcpListener,
    journal: JournalSetup<'a>,
) -> Result<(), Finish> {
    let stores = two_stores(alloc, 8)?;
    let setup = ServerSetup {
        alloc,
        plan,
        settings: plan.settings,
        doors: Doors::Redis(listener),
        operator: None,
        journal: Some(journal),
        notes: &Discard,
    };
    let input: Option<PipeReader> = None;
    let mut lines: Vec<u8> = Vec::new(alloc);
    let stayed = stay(rt, &setup, stores, WAITS, input, &mut lines);
    drop(lines);
    stayed?;
    Ok(())
}

/// Whether a server over the journal at this path ends well, and its client is told what is due.
fn serves<
    R: Handle + Net<Listener = TcpListener, Stream = TcpStream> + Files<File = File> + AllocGlobal,
>(rt: &R, alloc: Global, path: &PathBuf<Global>, rule: SyncRule, said: Talk) -> Option<bool> {
    let plan = plan_with(alloc, 8)?;
    let (listener, redis) = bound(rt)?;
    let opened = open_journal(rt, path.as_path().as_str()).ok()?;
    let journal = JournalSetup {
        opened: &opened,
        rule,
    };
    let (stayed, answered) = thread::join(
        rt,
        || stay_over_journal(rt, alloc, &plan, &listener, journal),
        || converse(rt, alloc, redis, said),
    );
    drop(opened);
    drop(listener);
    drop(plan);
    Some(stayed.is_ok() && answered.is_ok())
}

/// Whether each of two servers served, and what the journal has behind both.
#[derive(Debug, PartialEq, Eq, Drop)]
struct Served {
    first: Option<bool>,
    second: Option<bool>,
    changes: Vec<u8>,
}

/// Two servers, one behind the other, over a journal in a folder of its own.
fn serve_twice<
    R: Handle
        + Net<Listener = TcpListener, Stream = TcpStream>
        + Files<File = File>
        + AllocGlobal
        + Env,
>(rt: &R, alloc: Global, folder: &str, rule: SyncRule) -> io::Result<Served> {
    let folder = env::temp_dir(rt)?.as_path().join(alloc, folder)?;
    let path = folder.as_path().join(alloc, "changes")?;
    let _ = fs::remove_dir_all(rt, folder.as_path()).is_ok();
    fs::create_dir(rt, folder.as_path())?;
    let first = serves(rt, alloc, &path, rule, FIRST);
    let second = serves(rt, alloc, &path, rule, SECOND);
    let changes = fs::read(rt, path.as_path())?;
    fs::remove_dir_all(rt, folder.as_path())?;
    Ok(Served {
        first,
        second,
        changes,
    })
}

#[test]
fn a_server_knows_what_one_before_answered(rt: HostRuntime) -> io::Result<()> {
    let id = process::id(rt.process());
    for rule in [SyncRule::Always, SyncRule::Second, SyncRule::Never] {
        let folder = format!(in rt.alloc(); "chord-serve-{id}-{rule:?}")?;
        let served = serve_twice(&rt, rt.alloc(), folder.as_str(), rule)?;
        let is_right = served.first == Some(true)
            && served.second == Some(true)
            && served.changes.as_slice() == CHANGES;
        assert!(rt; is_right, "{rule:?}: {served:?}");
        drop(served);
    }
    Ok(())
}
