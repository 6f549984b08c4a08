use crate::{Grade, choose, grade};
use psb_bytes::{Digest, Object, ObjectList};
use psb_digest::Words;
use std::alloc::Global;
use std::test::Fail;

#[test]
fn the_grade_rises_with_the_failures(rt: HostRuntime) -> Result<(), Fail> {
    let table = [
        (0, Grade::Nothing),
        (2, Grade::Nothing),
        (3, Grade::OneIn(8)),
        (4, Grade::OneIn(4)),
        (5, Grade::OneIn(2)),
        (6, Grade::All),
        (7, Grade::All),
        (u32::MAX, Grade::All),
    ];
    for (failures, wanted) in table {
        assert_eq!(&rt; grade(failures), wanted, "{failures}");
    }
    Ok(())
}

/// What is chosen of slots of 2, 2 and 1 units after six failures.
fn chosen(alloc: Global, debt: u32) -> Result<ObjectList, Fail> {
    let entries = [
        (Object::Slot(4), 2),
        (Object::Slot(5), 2),
        (Object::Slot(6), 1),
    ];
    let mut words = Words::new(&Digest([7; 32]), 0);
    Ok(choose(alloc, &mut words, &entries, grade(6), debt)?)
}

#[test]
fn no_more_is_chosen_than_the_debt(rt: HostRuntime) -> Result<(), Fail> {
    let some = chosen(rt.alloc(), 3)?;
    assert_eq!(&rt;
        some.as_slice(),
        [Object::Slot(4), Object::Slot(6)].as_slice()
    );
    let none = chosen(rt.alloc(), 0)?;
    assert_eq!(&rt; none.as_slice().len(), 0);
    Ok(())
}
