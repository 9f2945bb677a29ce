//! Places that are marked.

ghost use Rattle.std.specs.Prelude.{◌≡◌, ◌++◌, OnOk, length};
ghost use Rattle.ips_emptied.specs.order.Chosen.{chosen, turned_places};

use std::alloc::AllocError;

/// Adds the places that are marked.
pub(crate) fn add(marks: &[bool], order: &mut Vec<usize>) -> Result<(), AllocError>
    ensures { OnOk result (order.new.items ≡ order.old.items ++ chosen 0 marks.now) }
{
    for i in 0..marks.len() {
        if marks[i] {
            order.push(i)?;
        }
    }
    Ok(())
}

/// Adds the places that are marked, from the last on.
pub(crate) fn add_back(marks: &[bool], order: &mut Vec<usize>) -> Result<(), AllocError>
    ensures { OnOk result (order.new.items ≡ order.old.items ++ turned_places (chosen 0 marks.now)) }
{
    let mut i = marks.len();
    while i > 0 {
        i -= 1;
        if marks[i] {
            order.push(i)?;
        }
    }
    Ok(())
}
