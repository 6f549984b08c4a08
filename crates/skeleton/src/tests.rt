use crate::{SkelError, SkelFault};

mod reading;
mod writing;

fn bad(fault: SkelFault, place: u32) -> Option<SkelError> {
    Some(SkelError::Bad { fault, place })
}
