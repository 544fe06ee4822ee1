// A table of four slots, whose keys are 16-bit numbers.
ghost use Rattle.std.specs.Ordering.{nat_cmp};
ghost use Rattle.std.proofs.Common.{rules};

use super::*;
use std::test::Fail;

#[derive(Clone, Copy, PartialEq, Eq, PartialOrd, Ord)]
struct Word(u16);

impl Ordered for Word {
    ghost order = { λ a b. nat_cmp a.0 b.0 };

    ghost reverses = { Prim.search rules };

    ghost ascends = { Prim.search rules };

    ghost ties = { Prim.search rules };

    fn compare(&self, other: &Word) -> Ordering {
        self.cmp(other)
    }
}

impl Exact for Word {
    ghost same = { Prim.search rules };
}

#[derive(Clone, Copy)]
struct Pair {
    word: Word,
    value: u8,
}

impl Entry for Pair {
    type Key = Word;

    ghost named = { λ p. p.word };

    fn key(&self) -> &Word {
        &self.word
    }
}

fn entry(word: u16, value: u8) -> Pair {
    Pair {
        word: Word(word),
        value,
    }
}

// Ranks alone are compared, the higher first, so two keys may be equal and yet differ: an order that neither `==` nor the
// derived one follows.
#[derive(Clone, Copy, PartialEq, Eq, PartialOrd, Ord)]
struct Ranked {
    rank: u16,
    note: u16,
}

impl Ordered for Ranked {
    ghost order = { λ a b. nat_cmp b.rank a.rank };

    ghost reverses = { Prim.search rules };

    ghost ascends = { Prim.search rules };

    ghost ties = { Prim.search rules };

    fn compare(&self, other: &Ranked) -> Ordering {
        other.rank.cmp(&self.rank)
    }
}

impl Entry for Ranked {
    type Key = Ranked;

    ghost named = { λ r. r };

    fn key(&self) -> &Ranked {
        self
    }
}

#[test]
fn equal_keys_may_differ(rt: HostRuntime) {
    let mut ranks = [Ranked { rank: 1, note: 0 }; 3];
    assert_eq!(rt; insert(&mut ranks, 0, Ranked { rank: 1, note: 7 }), Ok(0));
    assert_eq!(rt;
        insert(&mut ranks, 1, Ranked { rank: 1, note: 8 }),
        Err(Refusal::Present)
    );
    assert_eq!(rt; insert(&mut ranks, 1, Ranked { rank: 2, note: 5 }), Ok(0));
    assert_eq!(rt; find(&ranks, 2, &Ranked { rank: 1, note: 9 }), Ok(1));
    assert_eq!(rt; ranks[0].note, 5);
    assert_eq!(rt; ranks[1].note, 7);
}

#[test]
fn puts_in_order(rt: HostRuntime) {
    let mut pairs = [entry(0, 0); 4];
    assert_eq!(rt; insert(&mut pairs, 0, entry(500, 1)), Ok(0));
    assert_eq!(rt; insert(&mut pairs, 1, entry(2, 2)), Ok(0));
    assert_eq!(rt; insert(&mut pairs, 2, entry(900, 3)), Ok(2));
    assert_eq!(rt; insert(&mut pairs, 3, entry(500, 4)), Err(Refusal::Present));
    assert_eq!(rt; insert(&mut pairs, 3, entry(600, 5)), Ok(2));
    assert_eq!(rt; insert(&mut pairs, 4, entry(700, 6)), Err(Refusal::Full));
    assert_eq!(rt; insert(&mut pairs, 5, entry(700, 6)), Err(Refusal::Overrun));
    assert_eq!(rt; pairs[0].value, 2);
    assert_eq!(rt; pairs[1].value, 1);
    assert_eq!(rt; pairs[2].value, 5);
    assert_eq!(rt; pairs[3].value, 3);
}

#[test]
fn finds_and_removes(rt: HostRuntime) -> Result<(), Fail> {
    let mut pairs = [entry(3, 7), entry(40, 8), entry(41, 9), entry(1, 0)];
    assert_eq!(rt; find(&pairs, 3, &Word(41)), Ok(2));
    assert_eq!(rt; find(&pairs, 2, &Word(41)), Err(2));
    assert_eq!(rt; find(&pairs, 3, &Word(1)), Err(0));
    assert_eq!(rt; remove(&mut pairs, 3, &Word(4)), Err(Refusal::Absent));
    assert_eq!(rt; remove(&mut pairs, 3, &Word(3)), Ok(0));
    assert_eq!(rt; pairs[0].value, 8);
    assert_eq!(rt; pairs[1].value, 9);
    assert_eq!(rt; pairs[2].value, 7);
    let lowest = first(&pairs, 2).ok_or("empty")?;
    assert_eq!(rt; lowest.value, 8);
    assert!(rt; first(&pairs, 0).is_none());
    Ok(())
}
