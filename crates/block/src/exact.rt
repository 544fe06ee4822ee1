// Reading a head, and fitting a blob, are exact.
ghost use Rattle.block.specs.Exact.{FittedWhole, HeadReadBack, HeadWasWritten};

pub fn head_reading_is_exact()
    ensures { HeadReadBack × HeadWasWritten }
{}

pub fn fitting_is_exact()
    ensures { FittedWhole }
{}
