// Lists and names.
use base_num::{List, Memory, Name};
use std::alloc::Global;
use std::test::Fail;

// A list in which 9 stands behind 8, which was 7.
fn set(alloc: Global) -> Result<List<u32>, Memory> {
    let mut items = List::new(alloc);
    items.push(7)?;
    items.push(9)?;
    if items.len() == 2 {
        items.set(0, 8);
    }
    Ok(items)
}

#[test]
fn holds_lists_in_a_list(rt: HostRuntime) -> Result<(), Fail> {
    let mut outer: List<List<u32>> = List::new(rt.alloc());
    outer.push(List::from_vec(set(rt.alloc())?.into_vec()))?;
    for items in outer.as_slice() {
        assert_eq!(rt; items.as_slice(), [8, 9].as_slice());
    }
    assert_eq!(rt; outer.len(), 1);
    Ok(())
}

#[test]
fn is_empty_at_first(rt: HostRuntime) {
    let items: List<u32> = List::new(rt.alloc());
    assert!(rt; items.is_empty());
}

#[test]
fn changes_each_number(rt: HostRuntime) -> Result<(), Fail> {
    let mut numbers = List::from_vec(vec![in rt.alloc(); 1, 2, 3]?);
    for number in numbers.as_mut_slice() {
        *number = 5;
    }
    assert_eq!(rt; numbers.as_slice(), [5, 5, 5].as_slice());
    numbers.clear();
    assert!(rt; numbers.is_empty());
    Ok(())
}

#[test]
fn holds_a_name(rt: HostRuntime) -> Result<(), Fail> {
    let name = Name::new(rt.alloc(), "Itaipú")?;
    assert_eq!(rt; name.as_str(), "Itaipú");
    Ok(())
}
