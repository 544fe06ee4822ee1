// Reading a whole file.
use crate::draft::Draft;
use crate::file::{Complaint, LineFault, ShardFile};
use choice::hashes::HashChoice;
use choice::kinds::KindChoice;
use choice::schemes::SchemeChoice;
use std::alloc::Global;

// The largest limit, and the one where the file names none.
pub(crate) const LIMIT: usize = 16384;

fn finish(draft: Draft) -> Result<ShardFile, Complaint> {
    let Draft {
        hash,
        scheme,
        kind,
        limit,
        commitment,
        arrivals,
    } = draft;
    let commitment = commitment.ok_or(Complaint::NoCommitment)?;
    Ok(ShardFile {
        hash: hash.unwrap_or(HashChoice::Sha256),
        scheme: scheme.unwrap_or(SchemeChoice::Copy),
        kind: kind.unwrap_or(KindChoice::Plain),
        limit: limit.unwrap_or(LIMIT),
        commitment,
        arrivals,
    })
}

// The first line that cannot be read is told by its number and what is wrong with it.
pub fn parse(heap: Global, text: &str) -> Result<ShardFile, LineFault> {
    let mut draft = Draft::new(heap);
    // Kept in the loop: counted apart, a text with no commitment would be gone through twice.
    let mut last = 0;
    for (i, words) in text.lines().enumerate() {
        last = i + 1;
        draft
            .take_line(heap, last, words)
            .map_err(|complaint| LineFault {
                line: last,
                complaint,
            })?;
    }
    finish(draft).map_err(|complaint| LineFault {
        line: last,
        complaint,
    })
}
