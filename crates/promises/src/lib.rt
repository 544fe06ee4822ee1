// The three promises, whole, for every run.
#![tactic(auto)]

ghost use Rattle.model.specs.Promises.{PromisesHold};

// Whatever the calls: enough good shards bring the block, nobody is reported without cause, and every block given was handed in.
pub fn all_hold()
    ensures { PromisesHold }
{}
