// covasluk: opens a block from the shards that reached a node, and prints what it did.
#![tactic(auto)]

use console::commands::run;

fn main(rt: HostRuntime) -> anyhow::Result<()> {
    run(&rt)
}
