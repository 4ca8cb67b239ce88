//! Each front of a good line, and each line with one byte changed.
use crate::forms::{BLOCK, FORMS, place};
use shell_line::LINE_KINDS;
use shell_script::{ScriptError, parse_script};
use std::alloc::Global;
use std::test::Fail;

/// The line and the column where a script is bad; nothing where it is good; and `(0, 0)` where it is not read.
pub(crate) fn found(alloc: Global, input: &[u8], blocks: bool) -> Option<(usize, usize)> {
    if input.len() > 1_000_000 {
        return Some((0, 0));
    }
    match parse_script(alloc, &LINE_KINDS, input, blocks) {
        Ok(_) => None,
        Err(ScriptError::BadLine { line, column, .. }) => Some((line as usize, column as usize)),
        Err(_) => Some((0, 0)),
    }
}

/// The bytes that take the place of each byte of a line: blanks, marks, digits and letters of each class, and others.
const OTHERS: [u8; 38] = *b"\0\t\n\r !\"#',-./0179:=AFTVX\\_aefgstvx~\x7f\x80\xff";

/// Whether each front of a line and each line with one byte changed is bad where the forms say.
fn agrees(alloc: Global, forms: &[&'static [u8]], line: &[u8]) -> Result<bool, Fail> {
    let blocks = forms.len() == 1;
    let mut agrees = place(forms, line).is_none();
    for at in 0..line.len() {
        let front = &line[..at];
        agrees = agrees && found(alloc, front, blocks) == place(forms, front);
        let mut changed = Vec::from_slice(alloc, line)?;
        for byte in OTHERS {
            if at < changed.len() {
                changed[at] = byte;
            }
            agrees = agrees
                && found(alloc, changed.as_slice(), blocks) == place(forms, changed.as_slice());
        }
    }
    Ok(agrees)
}

#[test]
fn fronts_and_changed_lines(rt: HostRuntime) -> Result<(), Fail> {
    let lines: [&[u8]; 26] = [
        b"create 't','f'",
        b"create 't' , 'f1','-g' versions 30 splits 'm','\\x71' ",
        b"create 't','f','g','h' versions 3",
        b"create 't','f' splits 'm','q','u'",
        b"put 't','r','f:q','v'",
        b"put '\\x74','\\x00r','f-.:q:s', '' , 12 ",
        b"delete 't','r','f:q'",
        b"delete 't','r','f:q',7 , 'version' ",
        b"delete 't','r','f',0",
        b"delete 't','r','f2'",
        b"scan 't-.1'",
        b"flush 't'",
        b"compact 't'",
        b"major_compact 't'",
        b"disable 't'",
        b"enable 't'",
        b"drop 't'",
        b"split 't','r'",
        b"snapshot 't','s'",
        b"list_snapshots ",
        b"delete_snapshot 's'",
        b"clone_snapshot 's','t'",
        b"restore_snapshot 's'",
        b"bulkload 't','.a='",
        b"catalogjanitor_run",
        b"cleaner_chore_run",
    ];
    for line in lines {
        let agrees = agrees(rt.alloc(), &FORMS, line)?;
        assert!(rt; agrees, "in {} bytes", line.len());
    }
    let agrees = agrees(rt.alloc(), &BLOCK, b"=== a_1")?;
    assert!(rt; agrees);
    Ok(())
}
