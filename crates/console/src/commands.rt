// The commands: what each is asked, does and prints.

use crate::print::{Hex, print_outcome, print_shards};
use anyhow::anyhow;
use choice::hashes::HashChoice;
use examine::examine;
use hash::Hash;
use shardfile::parse::parse;
use std::env::Args;
use std::{env, fs};

const USAGE: &str = "usage: covasluk open FILE..
  Opens a block from the shards in each file, and prints each shard's verdict, then the block or the fault.
  A file is text, one thing to a line, with what is taken where a line is left out:
    hash NAME        sha-256 or sha3-256 (sha-256)
    scheme NAME      copy or parity (copy)
    kind NAME        plain or listed (plain)
    limit N          the largest blob in bytes, 1 to 16384 (16384)
    commitment HEX   block digest, coding root, context digest, minimum, extra: 100 bytes
    shard INDEX SENDER HEX
  HEX may be cut by spaces; what stands behind a # is a comment.
       covasluk hash NAME FILE
  Prints the digest of a file, as sha256sum and its kin do.
";

fn usage(rt: &HostRuntime) -> anyhow::Result<()> {
    rt.print(USAGE)?;
    Ok(())
}

fn open(rt: &HostRuntime, path: &str) -> anyhow::Result<()> {
    let text = fs::read_to_string(rt, path)?;
    match parse(rt.alloc(), text.as_str()) {
        Ok(file) => {
            let examined = examine(rt.alloc(), &file)?;
            println!(rt; "file {path}")?;
            print_shards(rt, &file, &examined)?;
            print_outcome(rt, &file, &examined)
        }
        Err(fault) => {
            eprintln!(rt; "{path}: {fault}")?;
            Err(anyhow!("the file cannot be read"))
        }
    }
}

fn open_all(rt: &HostRuntime, paths: Args) -> anyhow::Result<()> {
    if paths.len() == 0 {
        return Err(anyhow!("open takes a file"));
    }
    for path in paths {
        open(rt, path.as_str())?;
    }
    Ok(())
}

// A file's digest, as sha256sum and its kin print it.
fn print_hash(rt: &HostRuntime, name: &str, path: &str) -> anyhow::Result<()> {
    let hash: HashChoice = name
        .parse()
        .map_err(|_| anyhow!("no such hash: covasluk --help lists them"))?;
    let bytes = fs::read(rt, path)?;
    println!(rt; "{}  {path}", Hex(&hash.hash(bytes.as_slice())))?;
    Ok(())
}

// Does what the arguments ask.
pub fn run(rt: &HostRuntime) -> anyhow::Result<()> {
    let mut words = env::args(rt)?;
    let _program = words.next();
    let Some(command) = words.next() else {
        return usage(rt);
    };
    match command.as_str() {
        "--help" => usage(rt),
        "open" => open_all(rt, words),
        "hash" => match (words.next(), words.next()) {
            (Some(name), Some(path)) => print_hash(rt, name.as_str(), path.as_str()),
            _ => Err(anyhow!("hash takes a name and a file")),
        },
        _ => Err(anyhow!("no such command: covasluk --help tells")),
    }
}
