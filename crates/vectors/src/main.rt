// Runs the digests of data/digests.txt against the hashes, and names the first that differs.
#![tactic(auto)]

mod cases;
mod messages;

ghost use Rattle.std.specs.Prelude.{◌≡◌, ◌++◌, Decides};

use anyhow::anyhow;
use cases::{Case, Message, parse_case};
use hash::Hash;
use messages::{pattern_of, repeat};
use sha3::Sha3;
use sha256::Sha256;
use std::alloc::{AllocError, Global};
use std::fs;

// A digest that is not the stored one.
#[derive(Debug, Drop, thiserror::Error)]
enum Differs {
    #[error("the digest of a message of {bytes} bytes differs")]
    Whole { bytes: usize },
    #[error("the digest of a message of {bytes} bytes, cut at {at}, differs")]
    Cut { bytes: usize, at: usize },
}

// How many messages and splits agree.
#[derive(Clone, Copy, Default)]
struct Tally {
    standard: u32,
    lengths: u32,
    splits: u32,
}

impl Tally {
    fn add(&mut self, message: &Message<'_>, splits: u32) {
        match message {
            Message::Text(_, _) => self.standard = self.standard.saturating_add(1),
            Message::Pattern(_) => self.lengths = self.lengths.saturating_add(1),
        }
        self.splits = self.splits.saturating_add(splits);
    }
}

fn message_of(heap: Global, message: &Message<'_>) -> Result<Vec<u8>, AllocError> {
    match message {
        Message::Text(text, count) => repeat(heap, text.as_bytes(), *count),
        Message::Pattern(n) => pattern_of(heap, *n),
    }
}

// Whether the hash of the two parts is `expected`.
fn agrees<D: Hash>(hash: &D, first: &[u8], second: &[u8], expected: &[u8; 32]) -> bool
    ensures { Decides result (D.digest hash.now (first.now ++ second.now) ≡ expected.now) }
{
    hash.hash_parts(first, second) == *expected
}

// Hashes the message cut in two at a dozen places; the number of cuts, or the first place at which the digest differs.
fn agreeing_splits<D: Hash>(hash: &D, message: &[u8], expected: &[u8; 32]) -> Result<u32, Differs> {
    let n = message.len();
    let places = [0, 1, 31, 32, 33, 63, 64, 65, n / 3, n / 2, n - n.min(1), n];
    places
        .iter()
        .try_fold(0u32, |splits, at| match message.split_at_checked(*at) {
            Some((first, second)) if agrees(hash, first, second, expected) => Ok(
                splits.saturating_add(1),
            ),
            Some(_) => Err(Differs::Cut { bytes: n, at: *at }),
            None => Ok(splits),
        })
}

// The number of cuts of the case's message that agree, which the whole message does too.
fn run_case<D: Hash>(heap: Global, hash: &D, case: &Case<'_>) -> anyhow::Result<u32> {
    let message = message_of(heap, &case.message)?;
    if hash.hash(message.as_slice()) != case.digest {
        let bytes = message.len();
        return Err(Differs::Whole { bytes }.into());
    }
    Ok(agreeing_splits(hash, message.as_slice(), &case.digest)?)
}

// Every case of the hash that the file calls `name`.
fn run_cases<D: Hash>(heap: Global, hash: &D, name: &str, text: &str) -> anyhow::Result<Tally> {
    let mut tally = Tally::default();
    // A `for`: two of its steps end the function by `?`, and the tally is added to in between.
    for line in text.lines().filter(|line| !line.starts_with('#')) {
        let case = parse_case(line).ok_or_else(|| anyhow!("a line of digests.txt is not a case"))?;
        if case.hash == name {
            let splits = run_case(heap, hash, &case)?;
            tally.add(&case.message, splits);
        }
    }
    Ok(tally)
}

fn report_cases<D: Hash>(
    rt: &HostRuntime,
    hash: &D,
    name: &str,
    shown: &str,
    text: &str,
) -> anyhow::Result<()> {
    let Tally {
        standard,
        lengths,
        splits,
    } = run_cases(rt.alloc(), hash, name, text)?;
    println!(rt;
        "{shown}: {standard} standard messages, {lengths} lengths, {splits} splits: all agree"
    )?;
    Ok(())
}

fn run(rt: &HostRuntime) -> anyhow::Result<()> {
    let text = fs::read_to_string(rt, "digests.txt")?;
    report_cases(rt, &Sha256, "sha-256", "SHA-256", text.as_str())?;
    report_cases(rt, &Sha3, "sha3-256", "SHA3-256", text.as_str())
}

fn main(rt: HostRuntime) -> anyhow::Result<()> {
    run(&rt)
}
