// Shard files that cannot be read, and what is said of each: the line and what is wrong with it.
#![tactic(auto)]

use shardfile::parse::parse;

const COMMITMENT: &str =
    "commitment 11111111111111111111111111111111 11111111111111111111111111111111 22222222222222222222222222222222 22222222222222222222222222222222 33333333333333333333333333333333 33333333333333333333333333333333";

// A title and a file.
const FILES: [(&str, &str); 16] = [
    ("nothing", ""),
    ("unknown word", "hash sha-256\nblock 00\n"),
    ("unknown hash", "# first\nhash md5\n"),
    ("unknown scheme", "scheme raid\n"),
    ("unknown kind", "kind fancy\n"),
    ("word missing", "hash\n"),
    ("word too many", "hash sha-256 sha3-256\n"),
    ("twice", "kind plain\n\nkind plain\n"),
    ("limit of none", "limit 0\n"),
    ("limit too large", "limit 16385\n"),
    ("limit in letters", "limit ten\n"),
    ("odd digits", "commitment 123\n"),
    ("no digits", "commitment zz\n"),
    ("short commitment", "commitment 1234\n"),
    ("index too large", "shard 65536 bob 00\n"),
    ("no sender", "shard 1\n"),
];

// A title and the config of a commitment.
const CONFIGS: [(&str, &str); 6] = [
    ("minimum zero", "0000 0001"),
    ("extra zero", "0001 0000"),
    ("both zero", "0000 0000"),
    ("config cut off", "0001 00"),
    ("commitment twice", "0001 0001\ncommitment 00"),
    ("sound", "0001 0001"),
];

fn tell(rt: &HostRuntime, title: &str, text: &str) -> anyhow::Result<()> {
    match parse(rt.alloc(), text) {
        Ok(file) => println!(rt; "{title}: read, {} shards", file.arrivals.len())?,
        Err(fault) => println!(rt; "{title}: {fault}")?,
    }
    Ok(())
}

// Makes one file, whose commitment ends in `config`.
fn tell_config(rt: &HostRuntime, title: &str, config: &str) -> anyhow::Result<()> {
    let text = format!(in rt.alloc();
        "# a comment\n\n{COMMITMENT} {config}\nshard 65535 bob 00ffAB\n"
    )?;
    tell(rt, title, text.as_str())
}

fn run(rt: &HostRuntime) -> anyhow::Result<()> {
    for (title, text) in FILES {
        tell(rt, title, text)?;
    }
    for (title, config) in CONFIGS {
        tell_config(rt, title, config)?;
    }
    Ok(())
}

fn main(rt: HostRuntime) -> anyhow::Result<()> {
    run(&rt)
}
