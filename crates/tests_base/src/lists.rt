//! Lists, names and paths, on the happy path.

use qc_list::{List, Name, OutOfMemory, Path};
use std::alloc::Global;

/// Whether a list of these numbers has them, copied and as a vector.
fn keeps(alloc: Global, numbers: [u8; 2]) -> Result<bool, OutOfMemory> {
    let list = List::from_slice(alloc, &numbers)?;
    let copy = List::from_vec(list.copy()?.into_vec());
    Ok(list.items() == numbers.as_slice() && copy.items() == numbers.as_slice())
}

/// The list that a push of each makes.
fn pushed(alloc: Global, numbers: [u8; 2]) -> Result<List<u8>, OutOfMemory> {
    let mut list = List::new(alloc);
    for number in numbers {
        list.push(number)?;
    }
    Ok(list)
}

/// Whether the list that a push of each makes has them.
fn is_pushed(alloc: Global, numbers: [u8; 2]) -> Result<bool, OutOfMemory> {
    let list = pushed(alloc, numbers)?;
    Ok(list.items() == numbers.as_slice())
}

fn is_name(alloc: Global, text: &str) -> Result<bool, OutOfMemory> {
    let name = Name::new(alloc, text)?;
    Ok(name.text() == text)
}

fn is_path(alloc: Global, text: &str) -> Result<bool, OutOfMemory> {
    let path = Path::new(alloc, text)?;
    Ok(path.text() == text)
}

#[test]
fn what_is_put_in_is_read(rt: HostRuntime) {
    assert!(rt; keeps(rt.alloc(), [5, 7]) == Ok(true));
    assert!(rt; is_pushed(rt.alloc(), [5, 7]) == Ok(true));
    assert!(rt; is_name(rt.alloc(), "register") == Ok(true));
    assert!(rt; is_path(rt.alloc(), "type[0].rows") == Ok(true));
}
