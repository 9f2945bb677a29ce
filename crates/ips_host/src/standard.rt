//! The standard descriptors, where the program was started without them.

use crate::fault::{Refused, or_refused};
use std::fs::{Files, OpenOptions};

/// Three open files. A host gives a file that is opened the least number that is free, so none that is opened later, while
/// these stay open, has the number of a standard descriptor, and no report can land in a file of the image.
#[derive(Drop)]
pub struct Standard<F: Drop> {
    first: F,
    second: F,
    third: F,
}

/// Opens `/dev/null`, where that isn't done yet, as often as there are standard descriptors, to be read: where standard
/// output is one of them, a write to it is still an error.
pub fn take_standard<R: Files>(
    rt: &R,
    standard: &mut Option<Standard<R::File>>,
) -> Result<(), Refused> {
    if standard.is_none() {
        *standard = Some(opened(rt)?);
    }
    Ok(())
}

fn opened<R: Files>(rt: &R) -> Result<Standard<R::File>, Refused> {
    let first = null_to_read(rt)?;
    let second = null_to_read(rt)?;
    let third = null_to_read(rt)?;
    Ok(Standard {
        first,
        second,
        third,
    })
}

fn null_to_read<R: Files>(rt: &R) -> Result<R::File, Refused> {
    match or_refused(OpenOptions::new().read(true).open(rt, "/dev/null")) {
        Err(Refused::System(number)) => Err(Refused::Null(number)),
        answer => answer,
    }
}
