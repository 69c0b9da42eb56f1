//! Where the files of a journal are.

use std::alloc::Global;
use std::fs::{self, File, Files};
use std::io;
use std::path::{Path, PathBuf};

/// The file of a journal, and those beside it.
#[derive(Drop)]
pub struct Place {
    pub file: PathBuf<Global>,
    /// The one that is locked for as long as a server has the journal. The file itself is not, since
    /// a rewrite puts another one in its place.
    pub lock: PathBuf<Global>,
    /// The one into which a rewrite writes.
    pub new: PathBuf<Global>,
    folder: PathBuf<Global>,
}

/// The folder that the file is in.
fn folder_of(file: Path<'_>) -> Path<'_> {
    match file.parent() {
        Some(folder) if !folder.as_str().is_empty() => folder,
        _ => Path::new("."),
    }
}

/// The file itself, behind all links.
fn resolve<R: Files + AllocGlobal>(rt: &R, path: &str) -> io::Result<PathBuf<Global>> {
    match fs::canonicalize(rt, path) {
        Ok(file) => return Ok(file),
        Err(error) if error.kind() == io::ErrorKind::NotFound => {}
        Err(error) => return Err(error),
    }
    // A link to a file that is not there is none that can be made behind it.
    if fs::symlink_metadata(rt, path).is_ok() {
        return Err(io::Error::from(io::ErrorKind::NotFound));
    }
    let path = Path::new(path);
    let Some(name) = path.file_name() else {
        return Err(io::Error::from(io::ErrorKind::InvalidInput));
    };
    let folder = fs::canonicalize(rt, folder_of(path))?;
    Ok(folder.as_path().join(rt.alloc(), name)?)
}

impl Place {
    /// The place of the journal of this path. The file need not be there, its folder must.
    pub fn find<R: Files + AllocGlobal>(rt: &R, path: &str) -> io::Result<Place> {
        let file = resolve(rt, path)?;
        let alloc = rt.alloc();
        let lock = file.with_added_extension(alloc, "lock")?;
        let new = file.with_added_extension(alloc, "new")?;
        let folder = folder_of(file.as_path()).to_path_buf(alloc)?;
        Ok(Place {
            file,
            lock,
            new,
            folder,
        })
    }

    /// Brings to the disk which files the folder has.
    pub fn sync_folder<R: Files<File = File>>(&self, rt: &R) -> io::Result<()> {
        let folder: File = fs::open(rt, self.folder.as_path())?;
        folder.sync_all()
    }
}
