ghost use Rattle.std.specs.Prelude.{◌≤◌, length, IfOk};

use crate::{Question, has_names, is_answer_to};
use psb_bytes::{Digest, DigestList};
use psb_digest::sha;
use std::alloc::Global;
use std::test::Fail;

/// A question of one name, if there is one.
fn question(alloc: Global, name: Option<Digest>) -> Result<Question, Fail>
    ensures { IfOk result (λ q. length q.names ≤ 1) }
{
    let mut names = Vec::new(alloc);
    if let Some(name) = name {
        names.push(name)?;
    }
    Ok(Question {
        number: 7,
        salt: sha(b"salt"),
        names: DigestList::from_vec(names),
    })
}

#[test]
fn an_answer_has_the_salt_and_no_bit_above_the_names(rt: HostRuntime) -> Result<(), Fail> {
    let asked = question(rt.alloc(), Some(sha(b"name")))?;
    assert!(&rt; is_answer_to(&asked, &sha(b"salt"), 0));
    assert!(&rt; is_answer_to(&asked, &sha(b"salt"), 1));
    assert!(&rt; !is_answer_to(&asked, &sha(b"salt"), 2));
    assert!(&rt; !is_answer_to(&asked, &sha(b"other salt"), 1));
    Ok(())
}

#[test]
fn a_question_may_have_no_names(rt: HostRuntime) -> Result<(), Fail> {
    assert!(&rt; has_names(&question(rt.alloc(), Some(sha(b"name")))?));
    assert!(&rt; !has_names(&question(rt.alloc(), None)?));
    Ok(())
}
