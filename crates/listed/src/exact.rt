// Reading a Listed block is exact.
ghost use Rattle.listed.specs.Exact.{ListedReadBack, ListedWasWritten};

pub fn listed_reading_is_exact()
    ensures { ListedReadBack × ListedWasWritten }
{}
