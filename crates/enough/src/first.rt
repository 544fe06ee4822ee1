// Enough good shards bring the block.
ghost use Rattle.enough.specs.First.{EnoughAlways};

pub fn enough_bring_the_block()
    ensures { EnoughAlways }
{}
