//! The parts of a form, each read as far as it goes.

/// Where a part ends, if it is whole, and the furthest place that it was read to.
#[derive(Clone, Copy)]
pub(crate) struct Read {
    pub(crate) next: Option<usize>,
    pub(crate) furthest: usize,
}

/// What was seen of a text.
#[derive(Clone, Copy, PartialEq, Eq)]
enum Seen {
    Nothing,
    Dot,
    TwoDots,
    Bytes,
    Colon,
}

fn whole(at: usize) -> Read {
    Read {
        next: Some(at),
        furthest: at,
    }
}

fn broken(at: usize) -> Read {
    Read {
        next: None,
        furthest: at,
    }
}

fn byte_at(line: &[u8], at: usize) -> Option<u8> {
    line.get(at).copied()
}

fn behind(at: usize) -> usize {
    at.saturating_add(1)
}

fn behind_blanks(line: &[u8], at: usize) -> usize {
    let mut at = at;
    for _ in 0..line.len() {
        if byte_at(line, at) != Some(b' ') {
            return at;
        }
        at = behind(at);
    }
    at
}

fn mark(line: &[u8], at: usize, byte: u8) -> Read {
    if byte_at(line, at) == Some(byte) {
        whole(behind(at))
    } else {
        broken(at)
    }
}

fn comma(line: &[u8], at: usize) -> Read {
    match mark(line, behind_blanks(line, at), b',').next {
        Some(next) => whole(behind_blanks(line, next)),
        None => broken(behind_blanks(line, at)),
    }
}

fn is_digit(byte: Option<u8>) -> bool {
    matches!(byte, Some(b'0'..=b'9'))
}

fn number(line: &[u8], at: usize, least: u8) -> Read {
    let first = byte_at(line, at);
    if first == Some(b'0') && least == 0 {
        return whole(behind(at));
    }
    if first == Some(b'0') || !is_digit(first) {
        return broken(at);
    }
    let mut at = at;
    for _ in 0..line.len() {
        if !is_digit(byte_at(line, at)) {
            return whole(at);
        }
        at = behind(at);
    }
    whole(at)
}

/// What is seen of a text with a further byte, if the text may have it.
fn seen_with(token: u8, seen: Seen, byte: u8) -> Option<Seen> {
    let first = seen == Seen::Nothing;
    let word = byte.is_ascii_alphanumeric() || byte == b'_';
    match (token, byte) {
        (b'R', _) | (b'V', _) => Some(Seen::Bytes),
        (b'C', _) if seen == Seen::Colon => Some(Seen::Colon),
        (b'C', b':') if !first => Some(Seen::Colon),
        (b'N', b'-') | (b'N', b'.') if first => None,
        (b'F', b'.') | (b'C', b'.') if first => None,
        (b'P', b'.') if first => Some(Seen::Dot),
        (b'P', b'.') if seen == Seen::Dot => Some(Seen::TwoDots),
        (b'P', b'=') | (_, b'-') | (_, b'.') => Some(Seen::Bytes),
        _ if word => Some(Seen::Bytes),
        _ => None,
    }
}

/// Whether a text may end.
fn may_end(token: u8, seen: Seen) -> bool {
    match token {
        b'V' => true,
        b'C' => seen == Seen::Colon,
        _ => seen == Seen::Bytes,
    }
}

/// The value of a lower-case hexadecimal digit.
fn digit_at(line: &[u8], at: usize) -> Option<u8> {
    match byte_at(line, at)? {
        b'0' => Some(0),
        b'1' => Some(1),
        b'2' => Some(2),
        b'3' => Some(3),
        b'4' => Some(4),
        b'5' => Some(5),
        b'6' => Some(6),
        b'7' => Some(7),
        b'8' => Some(8),
        b'9' => Some(9),
        b'a' => Some(10),
        b'b' => Some(11),
        b'c' => Some(12),
        b'd' => Some(13),
        b'e' => Some(14),
        b'f' => Some(15),
        _ => None,
    }
}

fn escaped(high: u8, low: u8) -> u8 {
    high.saturating_mul(16).saturating_add(low)
}

/// Whether a text may have some byte with this first digit.
fn may_have(token: u8, seen: Seen, high: u8) -> bool {
    for low in 0..16 {
        if seen_with(token, seen, escaped(high, low)).is_some() {
            return true;
        }
    }
    false
}

/// What is seen of a text with an escape, or how far that goes.
fn escape(token: u8, seen: Seen, line: &[u8], at: usize) -> Result<Seen, usize> {
    let letter = behind(at);
    if byte_at(line, letter) != Some(b'x') {
        return Err(letter);
    }
    let first = behind(letter);
    let Some(high) = digit_at(line, first) else {
        return Err(first);
    };
    if !may_have(token, seen, high) {
        return Err(first);
    }
    let second = behind(first);
    let Some(low) = digit_at(line, second) else {
        return Err(second);
    };
    seen_with(token, seen, escaped(high, low)).ok_or(second)
}

/// A text in its quotes.
fn text(token: u8, line: &[u8], at: usize) -> Read {
    if byte_at(line, at) != Some(b'\'') {
        return broken(at);
    }
    let mut at = behind(at);
    let mut seen = Seen::Nothing;
    for _ in 0..line.len() {
        match byte_at(line, at) {
            Some(b'\'') if may_end(token, seen) => return whole(behind(at)),
            Some(b'\\') => match escape(token, seen, line, at) {
                Ok(now) => {
                    seen = now;
                    at = at.saturating_add(4);
                }
                Err(end) => return broken(end),
            },
            Some(byte) if b' ' <= byte && byte <= b'~' && byte != b'\'' => {
                let Some(now) = seen_with(token, seen, byte) else {
                    return broken(at);
                };
                seen = now;
                at = behind(at);
            }
            _ => return broken(at),
        }
    }
    broken(at)
}

/// Any further texts, each behind its comma.
fn further(token: u8, line: &[u8], at: usize) -> Read {
    let mut at = at;
    for _ in 0..line.len() {
        let read = match comma(line, at).next {
            Some(next) => text(token, line, next),
            None => comma(line, at),
        };
        match read.next {
            Some(next) => at = next,
            None => {
                return Read {
                    next: Some(at),
                    furthest: read.furthest,
                };
            }
        }
    }
    whole(at)
}

/// The bare name of a block.
fn block_name(line: &[u8], at: usize) -> Read {
    let mut end = at;
    for _ in 0..line.len() {
        match byte_at(line, end) {
            Some(byte) if byte.is_ascii_alphanumeric() || byte == b'_' => end = behind(end),
            _ => break,
        }
    }
    if end > at { whole(end) } else { broken(at) }
}

/// Reads a part of a line from a place on.
pub(crate) fn part(token: u8, line: &[u8], at: usize) -> Read {
    match token {
        b'+' => match mark(line, at, b' ').next {
            Some(next) => whole(behind_blanks(line, next)),
            None => broken(at),
        },
        b'.' => whole(behind_blanks(line, at)),
        b',' => comma(line, at),
        b'N' | b'F' | b'R' | b'C' | b'V' | b'P' => text(token, line, at),
        b'G' => further(b'F', line, at),
        b'S' => further(b'R', line, at),
        b'T' => number(line, at, 0),
        b'K' => number(line, at, 1),
        b'B' => block_name(line, at),
        byte => mark(line, at, byte),
    }
}
