// What the scheme is for.
ghost use Rattle.parity.specs.Codes.{ParityIsACode};

// Every shard of a blob is good, and any `minimum` of them open to it.
pub fn parity_is_a_code()
    ensures { ParityIsACode }
{}
