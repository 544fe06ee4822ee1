// Why a list of shards does not open.
ghost use Rattle.std.specs.Prelude.{◌≡◌};
ghost use Rattle.scheme.specs.Faults.{fault_number};
ghost use Rattle.scheme.specs.declared.fault.Fault.TheVariants.{TooLong};

use register::bytes::NoRoom;

#[derive(Clone, Copy, Debug, PartialEq, Eq)]
pub enum Fault {
    TooFew = 1,
    Uneven,
    BadLength,
    Padding,
    TooLong,
}

// The number that it goes by.
impl From<Fault> for u8 {
    ghost from_gives = { λ fault number. number ≡ fault_number fault };

    fn from(fault: Fault) -> u8 {
        fault as u8
    }
}

impl From<NoRoom> for Fault {
    ghost from_gives = { λ _ fault. fault ≡ TooLong };

    fn from(_: NoRoom) -> Fault {
        Fault::TooLong
    }
}
