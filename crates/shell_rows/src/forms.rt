//! The forms of lines as the reference of the language has them, and how far bytes go along them.
use crate::parts::part;

/// The forms of lines. `+` are blanks, at least one, and `.` any; `,` is a comma with any blanks around it. `N` is the
/// name of a table or a snapshot, `F` of a family, `R` a row, `C` a column, `V` a value and `P` a folder, in quotes; `G` are
/// any further families and `S` any further rows, each behind its comma. `T` is a timestamp and `K` a number of versions.
/// Any other byte stands for itself. Lengths, counts and limits are not told: no line that is read against these meets one.
pub(crate) const FORMS: [&'static [u8]; 27] = [
    b"create+N,FG.",
    b"create+N,FG+versions+K.",
    b"create+N,FG+splits+RS.",
    b"create+N,FG+versions+K+splits+RS.",
    b"put+N,R,C,V.",
    b"put+N,R,C,V,T.",
    b"delete+N,R,C.",
    b"delete+N,R,C,T.",
    b"delete+N,R,C,T,'version'.",
    b"delete+N,R,F.",
    b"delete+N,R,F,T.",
    b"scan+N.",
    b"flush+N.",
    b"compact+N.",
    b"major_compact+N.",
    b"disable+N.",
    b"enable+N.",
    b"drop+N.",
    b"split+N,R.",
    b"snapshot+N,N.",
    b"clone_snapshot+N,N.",
    b"bulkload+N,P.",
    b"delete_snapshot+N.",
    b"restore_snapshot+N.",
    b"list_snapshots.",
    b"cleaner_chore_run.",
    b"catalogjanitor_run.",
];

/// The form of a block line; `B` is the name of the block.
pub(crate) const BLOCK: [&'static [u8]; 1] = [b"=== B"];

/// How far a line goes along a form, and whether it is a whole one.
fn along(form: &[u8], line: &[u8]) -> (usize, bool) {
    let mut at = 0;
    let mut furthest: usize = 0;
    for token in form {
        let read = part(*token, line, at);
        furthest = furthest.max(read.furthest);
        match read.next {
            Some(next) => at = next,
            None => return (furthest, false),
        }
    }
    (furthest, at == line.len())
}

/// The column where a line leaves the forms, or none where it is whole, empty or a comment.
fn column(forms: &[&'static [u8]], line: &[u8]) -> Option<usize> {
    if line.is_empty() || line[0] == b'#' {
        return None;
    }
    let mut furthest: usize = 0;
    for form in forms {
        let (end, whole) = along(form, line);
        if whole {
            return None;
        }
        furthest = furthest.max(end);
    }
    Some(furthest.saturating_add(1))
}

/// Where the first line feed stands, or the length.
fn line_end(input: &[u8]) -> usize {
    for i in 0..input.len() {
        if input[i] == b'\n' {
            return i;
        }
    }
    input.len()
}

/// The line and the column of the first fault of one line or two.
pub(crate) fn place(forms: &[&'static [u8]], input: &[u8]) -> Option<(usize, usize)> {
    let end = line_end(input);
    if let Some(at) = column(forms, input.get(..end)?) {
        return Some((1, at));
    }
    let at = column(forms, input.get(end.saturating_add(1)..)?)?;
    Some((2, at))
}
