// The same program, run on `covasluk hash`: the gate runs each program crate once, on the `args` and `data` that stand
// beside it, so a second stored run needs a second crate.
#![tactic(auto)]

use console::commands::run;

fn main(rt: HostRuntime) -> anyhow::Result<()> {
    run(&rt)
}
