use checkpoint::{Shelf, Snapshot};
use std::test::Fail;

#[test]
fn finds_the_nearest_snapshot(rt: HostRuntime) -> Result<(), Fail> {
    let mut shelf = Shelf::new(rt.alloc());
    shelf.put(Snapshot {
        index: 5,
        state: 50u64,
    })?;
    assert_eq!(rt; shelf.len(), 1);
    assert!(rt; shelf.has(5) && !shelf.has(6));
    assert!(rt; shelf.is_top(5) && !shelf.is_top(4));
    assert_eq!(rt; shelf.nearest(9).map(|x| x.state), Some(50));
    assert!(rt; shelf.nearest(4).is_none());
    shelf.cut(5);
    assert_eq!(rt; shelf.len(), 0);
    Ok(())
}

#[test]
fn moves_its_base(rt: HostRuntime) -> Result<(), Fail> {
    let mut shelf = Shelf::new(rt.alloc());
    shelf.put(Snapshot {
        index: 5,
        state: 50u64,
    })?;
    shelf.move_base(5);
    shelf.cut(0);
    assert_eq!(rt; shelf.len(), 0);
    assert_eq!(rt; shelf.nearest(7).map(|x| x.state), Some(50));
    Ok(())
}
