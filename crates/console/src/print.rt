// Printing what was examined.
use anyhow::Context;
use block::head::Head;
use block::kind::Reading;
use choice::kinds::KindChoice;
use examine::Examined;
use reconstruct::error::Error;
use reconstruct::outcome::Outcome;
use register::words::read_u16;
use shardfile::file::ShardFile;
use std::fmt;

// Bytes as hexadecimal digits.
#[derive(Clone, Copy)]
pub struct Hex<'a>(pub &'a [u8]);

impl fmt::Display for Hex<'_> {
    fn fmt<W: fmt::Write>(&self, f: &mut fmt::Formatter<W>) -> fmt::Result {
        for byte in self.0 {
            write!(f, "{byte:02x}")?;
        }
        Ok(())
    }
}

pub fn print_shards(rt: &HostRuntime, file: &ShardFile, examined: &Examined) -> anyhow::Result<()> {
    let config = file.commitment.config();
    let (minimum, extra) = (config.minimum, config.extra);
    println!(rt; "commitment")?;
    println!(rt; "  block    {}", Hex(file.commitment.block()))?;
    println!(rt; "  root     {}", Hex(file.commitment.root()))?;
    println!(rt; "  context  {}", Hex(file.commitment.context()))?;
    println!(rt; "  config   minimum {minimum}, extra {extra}")?;
    println!(rt; "shards ({}, {})", file.scheme, file.hash)?;
    for (arrival, verdict) in file.arrivals.iter().zip(examined.verdicts.iter()) {
        let word = if *verdict { "good" } else { "bad" };
        let (line, index) = (arrival.line, arrival.index);
        println!(rt;
            "  line {line}: index {index} from {}: {word}",
            arrival.sender
        )?;
    }
    Ok(())
}

fn print_block(
    rt: &HostRuntime,
    file: &ShardFile,
    reading: Reading,
    place: &[u8],
) -> anyhow::Result<()> {
    println!(rt; "block ({}), {} bytes", file.kind, reading.len)?;
    let head = Head::read(place).context("the block has no head")?;
    let n = head.context_len;
    let context = place.get(1..1 + n).context("the block has no context")?;
    let parent = place.get(1 + n..33 + n).context("the block has no parent")?;
    println!(rt; "  context  {}", Hex(context))?;
    println!(rt; "  parent   {}", Hex(parent))?;
    println!(rt; "  height   {}", head.height.0)?;
    match file.kind {
        KindChoice::Plain => println!(rt;
            "  payload  {} bytes",
            reading.len.saturating_sub(n + 43)
        )?,
        KindChoice::Listed => println!(rt; "  entries  {}", read_u16(place, n + 41).unwrap_or(0))?,
    }
    println!(rt; "  digest   {}", Hex(&reading.digest))?;
    Ok(())
}

pub fn print_outcome(
    rt: &HostRuntime,
    file: &ShardFile,
    examined: &Examined,
) -> anyhow::Result<()> {
    match examined.outcome {
        Outcome::Insufficient(good) => {
            let minimum = file.commitment.config().minimum;
            println!(rt; "not opened: {good} good, and the minimum is {minimum}")?;
            Ok(())
        }
        // No `Display` of `Error` in reconstruct: these words are the derived `Debug`'s, which states no bytes, so a `ghost output`
        // there would spell each fault's name again.
        Outcome::Decoded(Err(Error::Coding(fault))) => {
            println!(rt; "fault: Coding({fault:?} {})", u8::from(fault))?;
            Ok(())
        }
        Outcome::Decoded(Err(Error::Blob(misfit))) => {
            println!(rt; "fault: {misfit:?}")?;
            Ok(())
        }
        Outcome::Decoded(Ok(reading)) => print_block(rt, file, reading, &examined.place),
    }
}
