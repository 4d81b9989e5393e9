//! The folder that a script's files lie in.
//!
//! A [`Folder`] reads the files that COPY names, each as often as it is asked for, and counts the reads that failed. It
//! opens nothing under a name that is not a file's ([`is_file_name`]). A read costs the bytes of its file.
ghost use Rattle.std.specs.Prelude.{◌≡◌, ◌<◌, ◌-◌, ◌^◌, ◌++◌, ◌∷◌, IfOk, None, string_bytes};
ghost use Rattle.cq_binder_rules.specs.Sources.{Reads, one_read_more};
ghost use Rattle.cq_cli_folder.specs.FileName.{OpensFilesAlone};

use crate::file_name::is_file_name;
use cq_binder_rules::{SourceFault, Sources};
use std::alloc::Global;
use std::marker::Model;
use std::{fs, io};

/// The files of one folder, which need not be there before one is read.
#[derive(Drop)]
pub struct Folder<'a> {
    rt: &'a HostRuntime,
    path: &'a str,
    failures: u64,
    reads: u64,
}

impl<'a> Model for Folder<'a> {
    ghost use Rattle.std.specs.Prelude.{ℕ};

    ghost Value = { ℕ × ℕ };

    ghost view = { λ folder. (folder.failures, folder.reads) };
}

impl Folder<'_> {
    pub fn new<'a>(rt: &'a HostRuntime, path: &'a str) -> Folder<'a>
        ensures { result ≡ (0, 0) }
    {
        Folder {
            rt,
            path,
            failures: 0,
            reads: 0,
        }
    }

    /// The bytes of the file of this name, in the folder and nowhere else.
    fn opened(&self, alloc: Global, name: &str) -> Result<Vec<u8>, SourceFault>
        ensures { OpensFilesAlone name.now result }
    {
        if !is_file_name(name) {
            return Err(SourceFault::Failed);
        }
        let path = path_of(alloc, self.path, name)?;
        match fs::read(self.rt, path.as_str()) {
            Ok(bytes) => Ok(bytes),
            Err(error) => match error.kind() {
                io::ErrorKind::OutOfMemory => Err(SourceFault::Memory),
                _ => Err(SourceFault::Failed),
            },
        }
    }
}

/// The path of a name in a folder.
fn path_of(alloc: Global, folder: &str, name: &str) -> Result<String, SourceFault>
    ensures { IfOk result (λ path. string_bytes path ≡ folder.now ++ 47 ∷ name.now) }
{
    Ok(format!(in alloc; "{folder}/{name}")?)
}

impl Sources for Folder<'_> {
    ghost files = { λ _. None };

    ghost failures = { λ folder. folder.0 };

    ghost reads = { λ folder. folder.1 };

    fn read(&mut self, alloc: Global, name: &str) -> Result<Vec<u8>, SourceFault>
        requires { self.old.0 < 2 ^ 64 - 1 }
        ensures read { Reads None name.now self.old.0 self.new.0 result }
        ensures counted { self.new.1 ≡ one_read_more self.old.1 }
        ensures names { OpensFilesAlone name.now result }
    {
        self.reads = self.reads.wrapping_add(1);
        match self.opened(alloc, name) {
            Ok(bytes) => Ok(bytes),
            Err(SourceFault::Memory) => Err(SourceFault::Memory),
            Err(SourceFault::Failed) => {
                self.failures += 1;
                Err(SourceFault::Failed)
            }
        }
    }
}
