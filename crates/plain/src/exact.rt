// Reading a Plain block is exact.
ghost use Rattle.plain.specs.Exact.{PlainReadBack, PlainWasWritten};

pub fn plain_reading_is_exact()
    ensures { PlainReadBack × PlainWasWritten }
{}
