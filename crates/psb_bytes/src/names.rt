ghost use Rattle.std.specs.Prelude.{◌≡◌};
ghost use Rattle.std.specs.List.{list_all};
ghost use Rattle.psb_bytes.specs.Names.{is_name, parts};

/// Whether a part of a path is a name: not empty, without NUL, and neither `.` nor `..`.
pub fn is_name(part: &str) -> bool
    ensures { result ≡ is_name part.now }
{
    let bytes = part.as_bytes();
    !bytes.is_empty()
        && !bytes.contains(&0)
        && bytes != b".".as_slice()
        && bytes != b"..".as_slice()
}

/// Whether each part of a path, between its slashes, is a name.
pub fn has_names(path: &str) -> bool
    ensures { result ≡ list_all is_name (parts path.now) }
{
    path.split('/').all(|part| is_name(part))
}
