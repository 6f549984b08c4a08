ghost use Rattle.std.specs.Prelude.{◌≡◌, ◌<◌, ◌++◌, [], ◌∷◌, length, IfSome, IfNone};
ghost use Rattle.psb_bytes.specs.Paths.{parents};

/// The folder that a path lies in, by its name: what stands before the last slash, where it has one.
pub fn folder_of(path: &str) -> Option<&str>
    ensures some { IfSome result (λ folder. parents path.now ≡ parents folder.now ++ folder.now ∷ []) }
    ensures shorter { IfSome result (λ folder. length folder.now < length path.now) }
    ensures none { IfNone result (parents path.now ≡ []) }
{
    match path.rsplit_once('/') {
        Some((folder, _)) => Some(folder),
        None => None,
    }
}
