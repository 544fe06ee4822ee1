// The blob 61 62 in two pieces: 00 00 00 and 02 61 62, with the parity 02 61 62. Opening does not look at paths.
use crate::open::open;
use crate::picks::picks;
use scheme::fault::Fault;
use scheme::piece::Piece;
use std::test::Fail;

const FIRST: [u8; 3] = [0, 0, 0];

const SECOND: [u8; 3] = [2, 0x61, 0x62];

const PARITY: [u8; 3] = [2, 0x61, 0x62];

// A shard of three bytes, with a path of any two siblings.
fn shard(payload: [u8; 3]) -> [u8; 67] {
    let mut bytes = [7; 67];
    bytes[..3].copy_from_slice(&payload);
    bytes
}

// Opens the shards of two payloads, each with its index.
fn open_two(one: (u16, [u8; 3]), other: (u16, [u8; 3]), place: &mut [u8]) -> Result<usize, Fault> {
    let (first, second) = (shard(one.1), shard(other.1));
    let shards = [
        Piece {
            index: one.0,
            bytes: &first,
        },
        Piece {
            index: other.0,
            bytes: &second,
        },
    ];
    open(&picks(&shards, 2)[0..3], place)
}

#[test]
fn both_pieces(rt: HostRuntime) -> Result<(), Fail> {
    let mut place = [9; 4];
    let length = open_two((1, SECOND), (0, FIRST), &mut place)
        .ok()
        .ok_or("opens")?;
    assert_eq!(rt; length, 2);
    assert_eq!(rt; place, [0x61, 0x62, 9, 9]);
    Ok(())
}

#[test]
fn one_piece_missing(rt: HostRuntime) -> Result<(), Fail> {
    let mut place = [9; 4];
    let length = open_two((2, PARITY), (0, FIRST), &mut place)
        .ok()
        .ok_or("opens")?;
    assert_eq!(rt; length, 2);
    assert_eq!(rt; place, [0x61, 0x62, 9, 9]);
    Ok(())
}

#[test]
fn faults(rt: HostRuntime) {
    let mut place = [9; 1];
    let few = open_two((0, FIRST), (0, PARITY), &mut place);
    assert_eq!(rt; few, Err(Fault::TooFew));
    let long = open_two((0, FIRST), (2, PARITY), &mut place);
    assert_eq!(rt; long, Err(Fault::TooLong));
}
