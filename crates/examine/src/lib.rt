// Examining what reached a node for one block: each shard's verdict, then the block or the fault.
#![tactic(auto)]

ghost use Rattle.std.specs.Prelude.{◌≡◌, map, length, IfOk};
ghost use Rattle.examine.specs.Arrived.{shard_of, shards_of};
ghost use Rattle.examine.specs.Examines.{Examines, empty};
ghost use Rattle.scheme.specs.Pieces.{indexed};

use reconstruct::coder::Coder;
use reconstruct::outcome::Outcome;
use scheme::piece::Piece;
use shardfile::file::{Arrival, ShardFile};
use std::alloc::{AllocError, Global};

#[derive(Drop)]
pub struct Examined {
    // One for each shard, in the order in which they came.
    pub verdicts: Vec<bool>,
    pub outcome: Outcome,
    // The blob at the front, where one was opened.
    pub place: Vec<u8>,
}

// A shard where it lies in the file.
fn piece(arrival: &Arrival) -> Piece<'_>
    ensures { indexed result ≡ shard_of arrival.now }
{
    Piece {
        index: arrival.index,
        bytes: arrival.bytes.as_slice(),
    }
}

// All of them, in the order in which they came.
fn pieces(heap: Global, arrivals: &[Arrival]) -> Result<Vec<Piece<'_>>, AllocError>
    ensures { IfOk result (λ v. map indexed v.items ≡ shards_of arrivals.now) }
{
    arrivals.iter().map(piece).collect(heap)
}

// Checks the file's shards, and opens the good ones into the place.
fn check_and_open(
    file: &ShardFile,
    shards: &mut [Piece<'_>],
    verdicts: &mut [bool],
    place: &mut [u8],
) -> Outcome
    requires arrived { map indexed shards.old ≡ shards_of file.now.arrivals.items }
    requires room { length verdicts.old ≡ length shards.old }
    requires clear { place.old ≡ empty file.now }
    ensures { Examines file.now verdicts.new result place.new }
{
    let coder = Coder {
        hash: &file.hash,
        scheme: &file.scheme,
        kind: &file.kind,
        commitment: &file.commitment,
    };
    coder.reconstruct(shards, 0, verdicts, place).unwrap()
}

// Checks every shard, and opens the good ones in the order in which they came.
pub fn examine(heap: Global, file: &ShardFile) -> Result<Examined, AllocError>
    ensures { IfOk result (λ e. Examines file.now e.verdicts.items e.outcome e.place.items) }
{
    let mut shards = pieces(heap, &file.arrivals)?;
    let mut verdicts = vec![in heap; false; shards.len()]?;
    let mut place = vec![in heap; 0; file.limit]?;
    let outcome = check_and_open(file, &mut shards, &mut verdicts, &mut place);
    Ok(Examined {
        verdicts,
        outcome,
        place,
    })
}
