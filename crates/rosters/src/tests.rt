// Three members, of which the second is this node.
use crate::epochs::Table;
use crate::fault::Fault;
use crate::members::Members;
use crate::roster::Roster;
use crate::single::Single;
use register::counters::Epoch;
use register::key::Key;
use std::test::Fail;

fn key(first: u8, last: u8) -> Option<Key> {
    let mut bytes = [0; 32];
    bytes[0] = first;
    bytes[31] = last;
    Key::try_from(&bytes[..]).ok()
}

#[test]
fn makes_and_refuses(rt: HostRuntime) -> Result<(), Fail> {
    let a = key(1, 9).ok_or("a")?;
    let b = key(1, 10).ok_or("b")?;
    let c = key(255, 0).ok_or("c")?;
    let members = Members::new(&[a, b, c], Some(b))?;
    let single = Single::new(members);
    assert_eq!(rt; single.own_index(Epoch(7)), Some(1));
    assert_eq!(rt; single.index_of(Epoch(7), &c), Some(2));
    assert_eq!(rt; single.index_of(Epoch(7), &key(1, 11).ok_or("d")?), None);
    assert!(rt; Members::new(&[b, a], None).is_err());
    assert!(rt; Members::new(&[a, a], None).is_err());
    assert!(rt; Members::new(&[a, b], Some(c)).is_err());
    assert!(rt; Members::new(&[a; 65], None).is_err());
    Ok(())
}

#[test]
fn knows_and_forgets(rt: HostRuntime) -> Result<(), Fail> {
    let a = key(1, 9).ok_or("a")?;
    let b = key(2, 0).ok_or("b")?;
    let mut table = Table::new();
    assert_eq!(rt;
        table.add(Epoch(5), Members::new(&[a, b], Some(b))?),
        Ok(())
    );
    assert_eq!(rt; table.add(Epoch(4), Members::new(&[b], None)?), Ok(()));
    assert_eq!(rt;
        table.add(Epoch(5), Members::new(&[a], None)?),
        Err(Fault::EpochTwice)
    );
    assert!(rt; table.known(Epoch(5)) && table.known(Epoch(4)) && !table.known(Epoch(6)));
    assert_eq!(rt; table.index_of(Epoch(4), &b), Some(0));
    assert!(rt; table.set_known(Epoch(5), false));
    assert_eq!(rt; table.index_of(Epoch(5), &b), None);
    assert_eq!(rt; table.own_index(Epoch(5)), None);
    assert!(rt; table.set_known(Epoch(5), true));
    assert_eq!(rt; table.own_index(Epoch(5)), Some(1));
    assert!(rt; !table.set_known(Epoch(6), true));
    Ok(())
}
