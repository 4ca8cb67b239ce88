//! Lines of each kind, and the places where others leave the grammar.
use crate::put_line::is_short_put;
use crate::{LINE_KINDS, LineKind, check_line};

/// The column of the first byte that is bad, or none where the bytes are a line.
fn column(line: &[u8]) -> Option<usize> {
    match check_line(&LINE_KINDS, line) {
        Ok(_) => None,
        Err(fault) => fault.0.checked_add(1),
    }
}

#[test]
fn lines(rt: HostRuntime) {
    let table: [&[u8]; 26] = [
        b"create 't','f'",
        b"create  't' , 'f','g' versions 3 splits 'm','q'  ",
        b"create 't','f' splits 'm'",
        b"put 't','r','f:q','v'",
        b"put 't' , 'r' ,'f:', '' , 12 ",
        b"put '\\x74','\\x00\\xff','f:a:b','\\x5c'",
        b"delete 't','r','f:q'",
        b"delete 't','r','f:q',7,'version'",
        b"delete 't','r','f:q',0 , 'version' ",
        b"delete 't','r','f',7",
        b"scan 't'",
        b"flush 't'",
        b"compact 't'",
        b"major_compact 't'",
        b"disable 't'",
        b"enable 't'",
        b"drop 't'",
        b"split 't','r'",
        b"snapshot 't','s'",
        b"list_snapshots  ",
        b"delete_snapshot 's'",
        b"clone_snapshot 's','t'",
        b"restore_snapshot 's'",
        b"bulkload 't','a=b'",
        b"catalogjanitor_run",
        b"cleaner_chore_run",
    ];
    for line in table {
        assert_eq!(rt; column(line), None, "in {} bytes", line.len());
    }
}

#[test]
fn columns(rt: HostRuntime) {
    let table: [(&[u8], usize); 30] = [
        (b"scan t", 6),
        (b"scna 't'", 3),
        (b"put 't','r','f:q','v',01", 24),
        (b"", 1),
        (b"  ", 1),
        (b"Scan 't'", 1),
        (b"scan", 5),
        (b"scan 't", 8),
        (b"scan 't' x", 10),
        (b"scan't'", 5),
        (b"scan 't'\r", 9),
        (b"snapshots 't'", 9),
        (b"delete_snap", 12),
        (b"list_snapshots x", 16),
        (b"scan '-t'", 7),
        (b"scan '\\x2d'", 9),
        (b"scan '\\x7A'", 10),
        (b"scan '\\x7", 10),
        (b"scan '\t'", 7),
        (b"scan '\x7f'", 7),
        (b"split 't',''", 12),
        (b"put 't','r','fq','v'", 16),
        (b"put 't','r','f:q','v',9223372036854775808", 41),
        (b"delete 't','r','f','version'", 20),
        (b"delete 't','r','f:q','version'", 22),
        (b"delete 't','r','f:q',7,'versions'", 32),
        (b"create 't'", 11),
        (b"create 't','f:g'", 14),
        (b"create 't','f' versions 0", 25),
        (b"bulkload 't','..'", 17),
    ];
    for (line, place) in table {
        assert_eq!(rt; column(line), Some(place), "in {} bytes", line.len());
    }
}

#[test]
fn a_kind_that_is_not_run(rt: HostRuntime) {
    let kinds = [LineKind::Scan, LineKind::DeleteSnapshot];
    let found = match check_line(&kinds, b"delete 't','r','f'") {
        Ok(_) => None,
        Err(fault) => Some(fault.0),
    };
    assert_eq!(rt; found, Some(6));
}

#[test]
fn what_a_line_puts_is_taken_at_once(rt: HostRuntime) {
    let table: [(&[u8], bool); 8] = [
        (b" 't','r','f:q','v'", true),
        (
            b"  't-1.x' , 'a row' ,'f_2:', '' ,9223372036854775807",
            true,
        ),
        (b" '\\x74','\\x00\\xff','f:a:b','\\x5c',0", true),
        (b" 't','r','f:q','v','", false),
        (b" 't','r','fq','v'", false),
        (b" '-t','r','f:q','v'", false),
        (b" 't','','f:q','v'", false),
        (b"'t','r','f:q','v'", false),
    ];
    for (arguments, taken) in table {
        assert_eq!(rt;
            is_short_put(arguments),
            taken,
            "in {} bytes",
            arguments.len()
        );
    }
}
