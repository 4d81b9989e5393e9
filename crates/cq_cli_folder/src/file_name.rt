//! Names of files.
ghost use Rattle.std.specs.Prelude.{◌≡◌};
ghost use Rattle.std.specs.List.{list_any};
ghost use Rattle.cq_cli_folder.specs.FileName.{is_barred, is_file_name};

/// Whether a COPY may open the name in its folder: it is not empty, names no folder, and has no `/` and no NUL.
pub fn is_file_name(name: &str) -> bool
    ensures { result ≡ is_file_name name.now }
{
    !name.is_empty() && name != "." && name != ".." && !has_barred(name.as_bytes())
}

fn has_barred(name: &[u8]) -> bool
    ensures { result ≡ list_any is_barred name.now }
{
    name.iter().any(|b| is_barred(*b))
}

fn is_barred(b: u8) -> bool
    ensures { result ≡ is_barred b }
{
    b == b'/' || b == 0
}
