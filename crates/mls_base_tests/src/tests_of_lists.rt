//! A test of `List`.
use mls_base::list::List;
use std::test::Fail;

#[test]
fn holds_items_in_order(rt: HostRuntime) -> Result<(), Fail> {
    let mut list = List::new(rt.alloc());
    list.reserve(2)?;
    assert!(rt; list.is_empty());
    list.push(3)?;
    list.push(5)?;
    assert_eq!(rt; list.as_slice(), [3, 5].as_slice());
    list.reverse();
    assert_eq!(rt; list.as_slice(), [5, 3].as_slice());
    let mut items = list.reversed().into_vec();
    items.push(7)?;
    assert_eq!(rt; List::of(items).as_slice(), [3, 5, 7].as_slice());
    Ok(())
}
