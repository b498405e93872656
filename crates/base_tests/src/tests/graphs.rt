//! Graphs, lists of held variables, and names.

use graph_cycles::{Graph, find_cycles};
use held_list::{AddFault, Held};
use sierra_types::{List, Name};
use std::test::Fail;

#[test]
fn nodes_on_a_cycle(rt: HostRuntime) -> Result<(), Fail> {
    let mut graph = Graph::with_capacity(rt.alloc(), 3, 3)?;
    graph.add(&[1])?;
    graph.add(&[2])?;
    graph.add(&[1])?;
    assert!(rt; graph.is_closed());
    if graph.is_closed() {
        let found = find_cycles(rt.alloc(), &graph)?;
        assert_eq!(rt; found.cyclic(), [false, true, true].as_slice());
        assert_eq!(rt; found.order(), [1, 2, 0].as_slice());
    }
    Ok(())
}

#[test]
fn variables_that_are_held(rt: HostRuntime) -> Result<(), Fail> {
    let mut held = Held::new(rt.alloc());
    held.add(5, 50u32)?;
    held.add(1, 10)?;
    assert_eq!(rt; held.add(5, 51), Err(AddFault::Taken));
    assert_eq!(rt; held.items(), [(1, 10), (5, 50)].as_slice());
    let (copied, cloned) = (held.copy()?, held.clone()?);
    assert_eq!(rt; held.take(5), Some(50));
    assert_eq!(rt; copied.items(), cloned.items());
    assert_eq!(rt; copied.differ(&held), Some(5));
    Ok(())
}

#[test]
fn names_and_lists(rt: HostRuntime) -> Result<(), Fail> {
    let name = Name::new(rt.alloc(), b"felt64")?;
    assert_eq!(rt; name.bytes(), b"felt64".as_slice());
    let list = List::new(vec![in rt.alloc(); 1u64, 2u64]?);
    assert_eq!(rt; list.items(), [1u64, 2u64].as_slice());
    Ok(())
}
