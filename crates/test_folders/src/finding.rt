//! The search for tests.

ghost use Rattle.std.specs.Prelude.{◌≡◌, [], ◌∷◌, IfOk, IsTrue, map, string_bytes};
ghost use Rattle.test_folders.specs.Folders.{AreTests, IsSource, StandsFor};

use crate::commented::is_commented;
use go_text::Memory;
use go_text::source::MAX_LENGTH;
use std::alloc::Global;
use std::fs::{DirEntry, File};
use std::io::{ErrorKind, Read};
use std::{fs, io};

/// What follows a folder's path if the folders below it count too.
const BELOW: &str = "/...";

/// The programs that some paths stand for.
#[derive(Drop)]
pub struct Tests<'p> {
    /// Their paths: those of a folder begin with the folder's.
    pub paths: Vec<String>,
    /// The paths that stand for a folder without tests.
    pub without: Vec<&'p str>,
}

/// The programs that are tested, in the order of the paths. A path that ends in `.go`, or is `-`, stands for itself. Of any other path,
/// a folder stands for the tests in it, and `FOLDER/...` for those in the folder and below it; what can't be listed stands for itself.
///
/// A test is a file whose name ends in `.go`, but not in `_test.go`, and that has an output comment. Left out are files and folders whose
/// names begin with `.` or `_`, and folders called `testdata`. The tests of a folder come in the order of the bytes of their paths.
///
/// Errors: out of memory.
pub fn tests_of<'p>(rt: &HostRuntime, alloc: Global, paths: &[&'p str]) -> Result<Tests<'p>, Memory>
    ensures { IfOk result (λ tests. AreTests (map (λ path. path.now) paths.now) (map string_bytes tests.paths.items)) }
{
    let mut found = Vec::new(alloc);
    let mut without = Vec::new(alloc);
    for path in paths {
        let mut tests = tests_at(rt, alloc, path)?;
        if tests.is_empty() {
            without.push(*path)?;
        }
        found.append(&mut tests)?;
    }
    Ok(Tests {
        paths: found,
        without,
    })
}

/// Like `tests_of`, for one path.
fn tests_at(rt: &HostRuntime, alloc: Global, path: &str) -> Result<Vec<String>, Memory>
    ensures { IfOk result (λ tests. StandsFor path.now (map string_bytes tests.items)) }
{
    if is_source(path) {
        return itself(alloc, path);
    }
    let (folder, is_deep) = match path.strip_suffix(BELOW) {
        Some(folder) => (folder, true),
        None => (path, false),
    };
    if !is_folder(rt, folder) {
        return itself(alloc, path);
    }
    tests_in(rt, alloc, folder, is_deep)
}

/// Whether a path stands for one source file.
fn is_source(path: &str) -> bool
    ensures { IsSource path.now → IsTrue result }
{
    path.as_bytes().ends_with(b".go".as_slice()) || path.as_bytes() == b"-".as_slice()
}

/// The path alone.
fn itself(alloc: Global, path: &str) -> Result<Vec<String>, Memory>
    ensures { IfOk result (λ tests. map string_bytes tests.items ≡ path.now ∷ []) }
{
    let mut paths = Vec::new(alloc);
    paths.push(String::from_str(alloc, path)?)?;
    Ok(paths)
}

/// Whether there is a folder at the path.
fn is_folder(rt: &HostRuntime, path: &str) -> bool {
    match fs::metadata(rt, path) {
        Ok(metadata) => metadata.is_dir(),
        Err(_) => false,
    }
}

/// The tests in a folder, and, if `is_deep`, in those below it. A folder that can't be listed is among them.
fn tests_in(
    rt: &HostRuntime,
    alloc: Global,
    folder: &str,
    is_deep: bool,
) -> Result<Vec<String>, Memory> {
    let mut listing = Listing {
        rt,
        alloc,
        is_deep,
        folders: Vec::new(alloc),
        tests: Vec::new(alloc),
    };
    listing.folders.push(String::from_str(alloc, folder)?)?;
    for _ in 0..u64::MAX {
        let Some(folder) = listing.folders.pop() else {
            break;
        };
        listing.list(folder)?;
    }
    let Listing { mut tests, .. } = listing;
    tests.sort()?;
    Ok(tests)
}

/// What was found in folders so far.
#[derive(Drop)]
struct Listing<'r> {
    rt: &'r HostRuntime,
    alloc: Global,
    is_deep: bool,
    /// The folders that are still to be listed.
    folders: Vec<String>,
    tests: Vec<String>,
}

impl Listing<'_> {
    /// Lists a folder.
    fn list(&mut self, folder: String) -> Result<(), Memory> {
        match self.take_all(folder.as_str()) {
            Ok(()) => Ok(()),
            Err(error) if error.kind() == ErrorKind::OutOfMemory => Err(Memory),
            Err(_) => Ok(self.tests.push(folder)?),
        }
    }

    /// Takes what is in a folder.
    fn take_all(&mut self, folder: &str) -> io::Result<()> {
        for entry in fs::read_dir(self.rt, folder)? {
            let entry = entry?;
            self.take(folder, &entry)?;
        }
        Ok(())
    }

    /// Takes a test, or a folder that counts.
    fn take(&mut self, folder: &str, entry: &DirEntry) -> io::Result<()> {
        let name = entry.file_name();
        if name.starts_with('.') || name.starts_with('_') {
            return Ok(());
        }
        let path = path_in(self.alloc, folder, name)?;
        if entry.file_type()?.is_dir() {
            if self.is_deep && name != "testdata" {
                self.folders.push(path)?;
            }
            return Ok(());
        }
        let is_program = name.ends_with(".go") && !name.ends_with("_test.go");
        if is_program && self.is_test(path.as_str())? {
            self.tests.push(path)?;
        }
        Ok(())
    }

    /// Whether the file at the path has an output comment, or can't be read.
    fn is_test(&self, path: &str) -> io::Result<bool> {
        match fs::metadata(self.rt, path) {
            Ok(metadata) if metadata.is_file() => {}
            _ => return Ok(false),
        }
        let mut bytes = Vec::new(self.alloc);
        let Ok(file) = File::open(self.rt, path) else {
            return Ok(true);
        };
        match file.take(MAX_LENGTH as u64 + 1).read_to_end(&mut bytes) {
            Ok(_) => Ok(is_commented(self.alloc, bytes)?),
            Err(error) if error.kind() == ErrorKind::OutOfMemory => Err(error),
            Err(_) => Ok(true),
        }
    }
}

/// The path of what has this name in the folder.
fn path_in(alloc: Global, folder: &str, name: &str) -> io::Result<String> {
    if folder.ends_with('/') {
        Ok(format!(in alloc; "{folder}{name}")?)
    } else {
        Ok(format!(in alloc; "{folder}/{name}")?)
    }
}
