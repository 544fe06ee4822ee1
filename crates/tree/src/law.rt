// What the frame and the tree are for.
ghost use Rattle.tree.specs.Laws.{DepthIsLeast, FramesOpen, ShardsAreRooted};

// Every shard of a list of payloads leads to the root of their tree.
pub fn shards_are_rooted()
    ensures { ShardsAreRooted }
{}

// Every blob whose length fits four bytes is read back from its frame.
pub fn frames_open()
    ensures { FramesOpen }
{}

// A tree has as few levels as its leaves allow.
pub fn depth_is_least()
    ensures { DepthIsLeast }
{}
