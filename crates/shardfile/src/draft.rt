// A shard file while it is read: each line adds to it.
ghost use Rattle.std.specs.Prelude.{◌≡◌, ◌≤◌, [], IfOk, MatchResult};
ghost use Rattle.std.specs.Result.{result_ok};
ghost use Rattle.shardfile.specs.Settled.{Settled};

use crate::file::{Arrival, Complaint};
use crate::hex::push_hex;
use crate::parse::LIMIT;
use choice::hashes::HashChoice;
use choice::kinds::KindChoice;
use choice::names::UnknownName;
use choice::schemes::SchemeChoice;
use register::commitment::Commitment;
use std::alloc::Global;
use std::str::SplitWhitespace;

#[derive(Drop)]
pub struct Draft {
    pub hash: Option<HashChoice>,
    pub scheme: Option<SchemeChoice>,
    pub kind: Option<KindChoice>,
    pub limit: Option<usize>,
    pub commitment: Option<Commitment>,
    pub arrivals: Vec<Arrival>,
}

fn next_word<'a>(words: &mut SplitWhitespace<'a>) -> Result<&'a str, Complaint> {
    words.next().ok_or(Complaint::WordMissing)
}

// The one word that is left.
fn only<'a>(words: &mut SplitWhitespace<'a>) -> Result<&'a str, Complaint> {
    let word = next_word(words)?;
    match words.next() {
        None => Ok(word),
        Some(_) => Err(Complaint::WordTooMany),
    }
}

// The bytes that the rest of the words write, joined.
fn hex_words(heap: Global, words: &mut SplitWhitespace<'_>) -> Result<Vec<u8>, Complaint> {
    let mut bytes = Vec::new(heap);
    for word in words {
        push_hex(&mut bytes, word.as_bytes())?;
    }
    Ok(bytes)
}

// Puts a value where there is none yet; on a complaint the place stands as before.
fn settle<T: Drop>(place: &mut Option<T>, value: Result<T, UnknownName>) -> Result<(), Complaint>
    ensures { MatchResult result (λ _. Settled place.old (result_ok value) place.new) (λ _. place.new ≡ place.old) }
{
    if place.is_some() {
        return Err(Complaint::Twice);
    }
    *place = Some(value?);
    Ok(())
}

// The limit on a blob: 1 to `LIMIT` bytes.
fn limit_of(word: &str) -> Result<usize, Complaint>
    ensures { IfOk result (λ n. (1 ≤ n) × (n ≤ 16384)) }
{
    let limit = word.parse()?;
    if (1..=LIMIT).contains(&limit) {
        Ok(limit)
    } else {
        Err(Complaint::LimitRange)
    }
}

impl Draft {
    // Nothing is settled yet.
    pub fn new(heap: Global) -> Draft
        ensures choices { (result.hash ≡ None) × (result.scheme ≡ None) × (result.kind ≡ None) }
        ensures limit { result.limit ≡ None }
        ensures commitment { result.commitment ≡ None }
        ensures arrivals { result.arrivals.items ≡ [] }
    {
        Draft {
            hash: None,
            scheme: None,
            kind: None,
            limit: None,
            commitment: None,
            arrivals: Vec::new(heap),
        }
    }

    fn take_commitment(
        &mut self,
        heap: Global,
        words: &mut SplitWhitespace<'_>,
    ) -> Result<(), Complaint> {
        let bytes = hex_words(heap, words)?;
        let commitment = Commitment::try_from(bytes.as_slice())?;
        settle(&mut self.commitment, Ok(commitment))
    }

    fn take_shard(
        &mut self,
        heap: Global,
        line: usize,
        words: &mut SplitWhitespace<'_>,
    ) -> Result<(), Complaint> {
        let index = next_word(words)?.parse()?;
        let sender = String::from_str(heap, next_word(words)?)?;
        let bytes = hex_words(heap, words)?;
        self.arrivals.push(Arrival {
            line,
            index,
            sender,
            bytes,
        })?;
        Ok(())
    }

    // Takes in one line; what stands behind a '#' is a comment.
    pub fn take_line(&mut self, heap: Global, line: usize, text: &str) -> Result<(), Complaint> {
        let mut words = text.split('#').next().unwrap_or("").split_whitespace();
        let Some(keyword) = words.next() else {
            return Ok(());
        };
        match keyword {
            "hash" => settle(&mut self.hash, only(&mut words)?.parse()),
            "scheme" => settle(&mut self.scheme, only(&mut words)?.parse()),
            "kind" => settle(&mut self.kind, only(&mut words)?.parse()),
            "limit" => settle(&mut self.limit, Ok(limit_of(only(&mut words)?)?)),
            "commitment" => self.take_commitment(heap, &mut words),
            "shard" => self.take_shard(heap, line, &mut words),
            _ => Err(Complaint::UnknownWord),
        }
    }
}
