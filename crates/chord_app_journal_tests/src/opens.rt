//! Opening the file of a journal, in a folder of the test's own.

use crate::checks::check;
use chord_app_journal::{OpenFault, OpenedJournal, open_journal};
use chord_journal_file::{JournalFile, Scanned};
use std::alloc::Global;
use std::fs::{self, File, Files};
use std::os::unix::fs::{PermissionsExt, symlink};
use std::path::PathBuf;
use std::rt::Env;
use std::{env, io, process};

const COMMAND: &[u8] = b"*3\r\n$4\r\nSADD\r\n$1\r\na\r\n$1\r\nx\r\n";

/// A folder that a test has for itself, which is not there before.
fn make_folder<R: Files<File = File> + AllocGlobal + Env>(
    rt: &R,
    id: u32,
    name: &str,
) -> io::Result<PathBuf<Global>> {
    let name = format!(in rt.alloc(); "chord-journal-{id}-{name}")?;
    let folder = env::temp_dir(rt)?
        .as_path()
        .join(rt.alloc(), name.as_str())?;
    let _ = fs::remove_dir_all(rt, folder.as_path()).is_ok();
    fs::create_dir(rt, folder.as_path())?;
    Ok(folder)
}

/// A path in a folder.
fn path_in(alloc: Global, folder: &PathBuf<Global>, name: &str) -> io::Result<PathBuf<Global>> {
    Ok(folder.as_path().join(alloc, name)?)
}

/// How a file is opened that has these bytes, and which it has then.
#[derive(Debug, PartialEq, Eq, Drop)]
struct Seen {
    scanned: Scanned,
    length: u64,
}

fn open_with<R: Files<File = File> + AllocGlobal>(
    rt: &R,
    path: &PathBuf<Global>,
    bytes: &[u8],
) -> io::Result<Result<Seen, OpenFault>> {
    fs::write(rt, path.as_path(), bytes)?;
    match open_journal(rt, path.as_path().as_str()) {
        Ok(opened) => {
            let length = opened.file.metadata()?.len();
            let scanned = opened.scanned;
            drop(opened);
            Ok(Ok(Seen { scanned, length }))
        }
        Err(fault) => Ok(Err(fault)),
    }
}

/// Opens a journal twice, and once more when the first one is let go. Says what became of each.
fn open_twice<R: Files<File = File> + AllocGlobal>(
    rt: &R,
    path: &PathBuf<Global>,
) -> Result<(Option<OpenFault>, Option<OpenFault>), OpenFault> {
    let first: OpenedJournal = open_journal(rt, path.as_path().as_str())?;
    let second = open_journal(rt, path.as_path().as_str()).err();
    drop(first);
    let third = open_journal(rt, path.as_path().as_str()).err();
    Ok((second, third))
}

#[test]
fn one_server_has_a_journal(rt: HostRuntime) -> io::Result<()> {
    let folder = make_folder(&rt, process::id(rt.process()), "one")?;
    let path = path_in(rt.alloc(), &folder, "changes")?;
    let found = open_twice(&rt, &path);
    let mode = fs::metadata(&rt, path.as_path())?.permissions().mode();
    fs::remove_dir_all(&rt, folder.as_path())?;
    check!(&rt; found == Ok((Some(OpenFault::InUse), None)));
    check!(&rt; mode % 0o1000 == 0o600, "its owner alone may read and write it");
    Ok(())
}

#[test]
fn what_is_torn_is_cut_off(rt: HostRuntime) -> io::Result<()> {
    let folder = make_folder(&rt, process::id(rt.process()), "torn")?;
    let path = path_in(rt.alloc(), &folder, "changes")?;
    let mut bytes = Vec::from_slice(rt.alloc(), COMMAND)?;
    bytes.extend_from_slice(b"*3\r\n$4\r\nSA")?;
    let torn = open_with(&rt, &path, &bytes)?;
    let whole = open_with(&rt, &path, COMMAND)?;
    let none = open_with(&rt, &path, b"HELLO\r\n")?;
    let left = fs::read(&rt, path.as_path())?;
    fs::remove_dir_all(&rt, folder.as_path())?;
    check!(&rt; torn == Ok(Seen { scanned: Scanned { whole: 28, torn: 10 }, length: 28 }));
    check!(&rt; whole == Ok(Seen { scanned: Scanned { whole: 28, torn: 0 }, length: 28 }));
    check!(&rt; none.is_err(), "what is no journal is not opened");
    check!(&rt; left.as_slice() == b"HELLO\r\n".as_slice(), "nor changed");
    Ok(())
}

/// Appends to a journal that has a command, and gives what its file has.
fn append<R: Files<File = File> + AllocGlobal>(
    rt: &R,
    path: &PathBuf<Global>,
) -> io::Result<Vec<u8>> {
    fs::write(rt, path.as_path(), COMMAND)?;
    if let Ok(opened) = open_journal(rt, path.as_path().as_str()) {
        let length = opened.scanned.whole;
        let mut file = JournalFile::new(opened.file, length);
        let _ = file.append(COMMAND).is_ok();
        drop(file);
        drop(opened.lock);
        drop(opened.place);
    }
    fs::read(rt, path.as_path())
}

#[test]
fn commands_are_appended(rt: HostRuntime) -> io::Result<()> {
    let folder = make_folder(&rt, process::id(rt.process()), "append")?;
    let path = path_in(rt.alloc(), &folder, "changes")?;
    let bytes = append(&rt, &path)?;
    fs::remove_dir_all(&rt, folder.as_path())?;
    let mut both = Vec::from_slice(rt.alloc(), COMMAND)?;
    both.extend_from_slice(COMMAND)?;
    check!(&rt; bytes.as_slice() == both.as_slice());
    Ok(())
}

#[test]
fn a_link_stays_one(rt: HostRuntime) -> io::Result<()> {
    let folder = make_folder(&rt, process::id(rt.process()), "link")?;
    let path = path_in(rt.alloc(), &folder, "changes")?;
    let link = path_in(rt.alloc(), &folder, "link")?;
    let loose = path_in(rt.alloc(), &folder, "loose")?;
    let nowhere = path_in(rt.alloc(), &folder, "nowhere")?;
    fs::write(&rt, path.as_path(), COMMAND)?;
    symlink(&rt, path.as_path(), link.as_path())?;
    symlink(&rt, nowhere.as_path(), loose.as_path())?;
    let whole = match open_journal(&rt, link.as_path().as_str()) {
        Ok(opened) => {
            let name = opened.place.file.as_path().file_name() == Some("changes");
            drop(opened);
            name
        }
        Err(_) => false,
    };
    let is_link = fs::symlink_metadata(&rt, link.as_path())?.is_symlink();
    let dangling = open_journal(&rt, loose.as_path().as_str()).err();
    let of_folder = open_journal(&rt, folder.as_path().as_str()).err();
    fs::remove_dir_all(&rt, folder.as_path())?;
    check!(&rt; whole && is_link);
    check!(&rt; dangling == Some(OpenFault::Io(io::ErrorKind::NotFound)));
    check!(&rt; of_folder == Some(OpenFault::NotRegular), "a folder is no journal");
    Ok(())
}

#[test]
fn what_a_rewrite_left_is_removed(rt: HostRuntime) -> io::Result<()> {
    let folder = make_folder(&rt, process::id(rt.process()), "new")?;
    let path = path_in(rt.alloc(), &folder, "changes")?;
    let new = path_in(rt.alloc(), &folder, "changes.new")?;
    fs::write(&rt, new.as_path(), b"half")?;
    let opened = open_journal(&rt, path.as_path().as_str());
    let is_opened = opened.is_ok();
    drop(opened);
    let is_there = fs::exists(&rt, new.as_path())?;
    fs::remove_dir_all(&rt, folder.as_path())?;
    check!(&rt; is_opened && !is_there);
    Ok(())
}
