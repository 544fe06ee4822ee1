// What holds of every history that leads to a state.
#![tactic(auto)]

ghost use Rattle.runs.specs.Blocks.{AlwaysHandedIn};
ghost use Rattle.runs.specs.Causes.{NeverWithoutCause};
ghost use Rattle.runs.specs.Rolls.{RollsFollow};

// The roll, kept from calls and answers alone, tells the records' commitments and rounds.
pub fn rolls_follow()
    ensures { RollsFollow }
{}

// Who keeps to the rules is never reported.
pub fn nobody_without_cause()
    ensures { NeverWithoutCause }
{}

// A block that is given is what good shards, each handed in, open to.
pub fn blocks_were_handed_in()
    ensures { AlwaysHandedIn }
{}
