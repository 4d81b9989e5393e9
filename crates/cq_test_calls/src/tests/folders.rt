//! What a folder of the system gives: a failed source for whatever is no file in it that can be read.
use cq_binder_rules::{SourceFault, Sources};
use cq_cli_folder::Folder;
use std::test::Fail;

/// A folder, and a name of it.
const FAILING: &[(&str, &str)] = &[
    ("/proc/self", ".."),
    ("/proc/self", "."),
    ("/proc/self", ""),
    ("/", "proc/version"),
    ("/proc", "version\0"),
    ("/proc", "no-such-file"),
    // a folder
    ("/proc", "self"),
    // no such folder
    ("/no-such-folder", "version"),
    // whose memory this is may open it, and read nothing at 0; nobody else may open it
    ("/proc/1", "mem"),
];

#[test]
fn what_is_no_file_in_the_folder_is_a_failed_source(rt: HostRuntime) -> Result<(), Fail> {
    for (path, name) in FAILING {
        let mut folder = Folder::new(&rt, path);
        let given = folder.read(rt.alloc(), name);
        assert!(rt; matches!(given, Err(SourceFault::Failed)), "{path} {name}");
    }
    Ok(())
}
