//! What failures in a row come to.

ghost use Rattle.std.specs.Prelude.{◌≡◌, true};
ghost use Rattle.psb_model.specs.Discards.{one_in};
ghost use Rattle.discard_policy.specs.Grades.{every, grade_of, is_grade};

use crate::grades::Grade;

/// The grade of so many failures in a row.
pub fn grade(failures: u32) -> Grade
    ensures table { result ≡ grade_of (one_in failures) }
    ensures every { every result ≡ one_in failures }
    ensures is_grade { is_grade result ≡ true }
{
    match failures {
        0..=2 => Grade::Nothing,
        3 => Grade::OneIn(8),
        4 => Grade::OneIn(4),
        5 => Grade::OneIn(2),
        _ => Grade::All,
    }
}
