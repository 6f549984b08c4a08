//! How often entries are let go.

ghost use Rattle.std.specs.Prelude.{◌≡◌, ◌&&◌, ◌==◌, ◌%◌, nat_lt, true};

/// Of how many entries one is let go, by chance.
#[derive(Clone, Copy, PartialEq, Eq, Debug)]
pub enum Grade {
    Nothing,
    OneIn(u32),
    All,
}

impl Grade {
    ghost use Rattle.discard_policy.specs.Grades.{every, is_grade};

    /// Whether the word lets an entry go.
    pub(crate) fn lets_go(self, word: u32) -> bool
        requires { is_grade self ≡ true }
        ensures { result ≡ (nat_lt 0 (every self) && word % every self == 0) }
    {
        match self {
            Grade::Nothing => false,
            Grade::OneIn(n) => word % n == 0,
            Grade::All => true,
        }
    }
}
