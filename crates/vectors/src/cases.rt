// The lines of the file of digests.

// What a message is: a text so many times over, or the pattern of so many bytes.
#[derive(Drop)]
pub enum Message<'a> {
    Text(&'a str, u32),
    Pattern(u32),
}

#[derive(Drop)]
pub struct Case<'a> {
    // A name and no enum: a line of a hash that is not asked for is no fault, whatever its name.
    pub hash: &'a str,
    pub message: Message<'a>,
    pub digest: [u8; 32],
}

// Digits in capitals are refused.
fn hex_digit(digit: u8) -> Option<u8> {
    if digit.is_ascii_uppercase() {
        return None;
    }
    let value = char::from(digit).to_digit(16)?;
    Some(value as u8)
}

// Digit by digit: the kit's `hex` would be one library more to trust.
fn parse_digest(text: &str) -> Option<[u8; 32]> {
    let digits = text.as_bytes();
    if digits.len() != 64 {
        return None;
    }
    let mut digest = [0; 32];
    for (byte, &[high, low]) in digest.iter_mut().zip(digits.as_chunks::<2>().0) {
        *byte = hex_digit(high)? << 4 | hex_digit(low)?;
    }
    Some(digest)
}

pub fn parse_case(line: &str) -> Option<Case<'_>> {
    let mut words = line.split_whitespace();
    let hash = words.next()?;
    let kind = words.next()?;
    let count = words.next()?.parse::<u32>().ok()?;
    let message = match kind {
        "text" => Message::Text(words.next()?, count),
        "pattern" => Message::Pattern(count),
        _ => return None,
    };
    let digest = parse_digest(words.next()?)?;
    Some(Case {
        hash,
        message,
        digest,
    })
}
