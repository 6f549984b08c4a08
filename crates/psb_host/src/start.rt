//! What is supposed of the outside at first.
ghost use Rattle.std.specs.Prelude.{ℕ, List, []};
ghost use Rattle.std.specs.FinMap.{empty};
ghost use Rattle.psb_station.specs.Folder.{Content};

/// What the file of a station held as the station was made. A function over `S: Start` is proved for
/// all that it may have held; no code can read it.
pub trait Start: Drop {
    /// What it read.
    ghost first: { List ℕ };

    /// What a crash may leave until the first sync.
    ghost left: { List ℕ → Type 0 };

    /// What it read is one of these.
    ghost reads: { left first };
}

/// What stood at each path as a folder was made, as `Start` says it of a file.
pub trait StartFolder: Drop {
    ghost tree: { Content };
}

/// For `main` to name. At this type a clause on values says nothing of a file or a folder that is not
/// empty; what `main` runs is proved for each other start too.
#[derive(Drop)]
pub struct Unknown;

impl Start for Unknown {
    ghost first = { [] };

    ghost left = { λ _. Unit {0} };

    ghost reads = { tt };
}

impl StartFolder for Unknown {
    ghost tree = { empty };
}
