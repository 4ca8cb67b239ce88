//! Scripts, their sessions, and the places of bad lines.
use crate::{ScriptError, parse_script};
use shell_line::LineKind;
use std::alloc::Global;
use std::test::Fail;

const KINDS: [LineKind; 3] = [LineKind::Create, LineKind::Put, LineKind::Scan];

// The sessions of a script with the numbers of their lines, or where it is bad.
fn answer(alloc: Global, input: &[u8], blocks: bool) -> Result<String, Fail> {
    if input.len() > 1000 {
        return Ok(String::from_str(alloc, "long")?);
    }
    let script = match parse_script(alloc, &KINDS, input, blocks) {
        Ok(script) => script,
        Err(error) => return Ok(format!(in alloc; "{:?}", error)?),
    };
    let mut text = String::new(alloc);
    for session in script.sessions.as_slice() {
        let begun = format!(in alloc; "{:?}", session.name)?;
        text.push_str(begun.as_str())?;
        for asked in session.lines.as_slice() {
            let number = format!(in alloc; " {}", asked.line)?;
            text.push_str(number.as_str())?;
        }
    }
    Ok(text)
}

#[test]
fn scripts(rt: HostRuntime) -> Result<(), Fail> {
    let table: [(&[u8], &str); 15] = [
        (b"", "Blob { bytes: [] }"),
        (b"\n\r\n", "Blob { bytes: [] }"),
        (b"#x", "Blob { bytes: [] }"),
        (
            b"scan 't'\nscan 't'\r\nscan 't'",
            "Blob { bytes: [] } 1 2 3",
        ),
        (
            b"# scan 't'\n\n\r\ncreate 't','f'\n",
            "Blob { bytes: [] } 4",
        ),
        (
            b"scan 't'\n\nscan t\nscna",
            "BadLine { session: 0, line: 3, column: 6 }",
        ),
        (b"scna 't'", "BadLine { session: 0, line: 1, column: 3 }"),
        (b"scan 't'\r", "BadLine { session: 0, line: 1, column: 9 }"),
        (b"scan\r't'\n", "BadLine { session: 0, line: 1, column: 5 }"),
        (
            b"scan 't'\r\r\n",
            "BadLine { session: 0, line: 1, column: 9 }",
        ),
        (b" # x\n", "BadLine { session: 0, line: 1, column: 1 }"),
        (b"#\n  \n", "BadLine { session: 0, line: 2, column: 1 }"),
        (
            b"put 't','r','f:q','v',01",
            "BadLine { session: 0, line: 1, column: 24 }",
        ),
        (b"flush 't'", "BadLine { session: 0, line: 1, column: 1 }"),
        (b"=== a", "BadLine { session: 0, line: 1, column: 1 }"),
    ];
    for (input, want) in table {
        let found = answer(rt.alloc(), input, false)?;
        assert_eq!(rt; found.as_str(), want);
    }
    Ok(())
}

#[test]
fn scripts_with_blocks(rt: HostRuntime) -> Result<(), Fail> {
    let table: [(&[u8], &str); 13] = [
        (b"", ""),
        (b"=== a", "Blob { bytes: [97] }"),
        (
            b"#\n=== a\nscan 't'\r\n\n=== _\n=== B\nscan 't'",
            "Blob { bytes: [97] } 3Blob { bytes: [95] }Blob { bytes: [66] } 7",
        ),
        (
            b"=== a\nscan 't'\n=== a",
            "BadLine { session: 1, line: 3, column: 6 }",
        ),
        (
            b"scan 't'\n=== a",
            "BadLine { session: 0, line: 1, column: 1 }",
        ),
        (b"=== \n", "BadLine { session: 0, line: 1, column: 5 }"),
        (b"=== a-", "BadLine { session: 0, line: 1, column: 6 }"),
        (b"=== a ", "BadLine { session: 0, line: 1, column: 6 }"),
        (b"==== a", "BadLine { session: 0, line: 1, column: 4 }"),
        (
            b"=== 012345678901234567890123456789012",
            "BadLine { session: 0, line: 1, column: 37 }",
        ),
        (b"=== a\n==", "BadLine { session: 1, line: 2, column: 3 }"),
        (
            b"=== a\nscan t",
            "BadLine { session: 1, line: 2, column: 6 }",
        ),
        (
            b"=== a\n=== b\n=== c\n=== d\n=== e\n=== f\n=== g\n=== h\n=== i\n=== j\n=== k\n=== l\n=== m\n=== n\n=== o\n=== p\nx\n=== a",
            "TooManySessions",
        ),
    ];
    for (input, want) in table {
        let found = answer(rt.alloc(), input, true)?;
        assert_eq!(rt; found.as_str(), want);
    }
    Ok(())
}
