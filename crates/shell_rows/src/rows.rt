//! Rows by name, with their columns.
use crate::tests::found;
use std::alloc::Global;
use std::test::Fail;

#[test]
fn good_lines(rt: HostRuntime) {
    let table: [&[u8]; 10] = [
        b"create  't'  ,  'f'  ,  'g'  versions  3  splits  'm'  ,  'q'  ",
        b"put  't'  ,  'r'  ,  'f:q'  ,  'v'  ,  12  ",
        b"delete  't'  ,  'r'  ,  'f:q'  ,  7  ,  'version'  ",
        b"delete 't','r','f-.1',9223372036854775807",
        b"create '_','-f' versions 2147483647",
        b"split 't',' ~\"\\x27\\x5c\\x0a'",
        b"put 't','r','f:::','\\x00'",
        b"bulkload 't','...'",
        b"bulkload 't','=.'",
        b"scan '9A.-_'",
    ];
    for line in table {
        assert_eq!(rt;
            found(rt.alloc(), line, false),
            None,
            "in {} bytes",
            line.len()
        );
    }
}

#[test]
fn bad_lines(rt: HostRuntime) {
    let table: [(&[u8], usize); 52] = [
        (b"SCAN 't'", 1),
        (b" scan 't'", 1),
        (b"sca n 't'", 4),
        (b"scan \"t\"", 6),
        (b"scan ''", 7),
        (b"scan ' t'", 7),
        (b"scan 't '", 8),
        (b"scan 't','r'", 9),
        (b"scan 't' # x", 10),
        (b"scan '\\", 8),
        (b"scan '\\X74'", 8),
        (b"scan '\\x", 9),
        (b"scan '\\x7'", 10),
        (b"scan '\\x7G'", 10),
        (b"scan '\\xff'", 9),
        (b"split 't','\x80'", 12),
        (b"split 't' 'r'", 11),
        (b"split 't',,'r'", 11),
        (b"split 't'", 10),
        (b"put't','r','f:q','v'", 4),
        (b"put 't','r','f :q','v'", 15),
        (b"put 't','r','.f:q','v'", 14),
        (b"put 't','r',':q','v'", 14),
        (b"put 't','r','f:q'", 18),
        (b"put 't','r','f:q','v',", 23),
        (b"put 't','r','f:q','v',-1", 23),
        (b"put 't','r','f:q','v','x'", 23),
        (b"put 't','r','f:q','v',1 2", 25),
        (b"put 't','r','f:q','v',1,", 24),
        (b"put 't','r','f:q','v',92233720368547758070", 42),
        (b"delete 't','r'", 15),
        (b"delete 't','r','f',7,'version'", 21),
        (b"delete 't','r','f:q',7,'VERSION'", 25),
        (b"delete 't','r','f:q',7,' version'", 25),
        (b"delete 't','r','f:q',7,'\\x76ersion'", 25),
        (b"create 't','f'versions 3", 15),
        (b"create 't','f' VERSIONS 3", 16),
        (b"create 't','f' versions3", 24),
        (b"create 't','f' versions 03", 25),
        (b"create 't','f' versions 2147483648", 34),
        (b"create 't','f' versions 3splits 'm'", 26),
        (b"create 't','f' versions 3 versions 4", 27),
        (b"create 't','f' splits'm'", 22),
        (b"create 't','f' splits 'm' versions 3", 27),
        (b"create 't','f' splits 'm',", 27),
        (b"create 't','f' splits ''", 24),
        (b"snapshot 't','-s'", 15),
        (b"clone_snapshot 's'", 19),
        (b"catalogjanitor_run2", 19),
        (b"cleaner_chore_ru", 17),
        (b"bulkload 't','.'", 16),
        (b"bulkload 't','a/b'", 16),
    ];
    for (line, column) in table {
        assert_eq!(rt;
            found(rt.alloc(), line, false),
            Some((1, column)),
            "in {} bytes",
            line.len()
        );
    }
}

/// A front, a piece, how often it stands in the longest good line, a back, and the column that is bad with one more.
type Longest = (&'static [u8], &'static [u8], usize, &'static [u8], usize);

const LONGEST: [Longest; 14] = [
    (b"scan '", b"a", 100, b"'", 107),
    (b"scan '", b"\\x61", 100, b"'", 407),
    (b"snapshot 't','", b"s", 100, b"'", 115),
    (b"create 't','", b"f", 127, b"'", 140),
    (b"put 't','", b"r", 32_767, b"','f:q','v'", 32_777),
    (b"put 't','", b"\\x00", 32_767, b"','f:q','v'", 131_078),
    (b"split 't','", b"r", 32_767, b"'", 32_779),
    (b"create 't','f' splits '", b"\\xff", 32_767, b"'", 131_092),
    (b"put 't','r','f:", b"q", 32_767, b"','v'", 32_783),
    (b"bulkload 't','", b"a", 255, b"'", 270),
    (b"create 't'", b",'f'", 16, b" versions 2", 75),
    (b"create 't','f' splits 'r'", b",'r'", 998, b"", 4_018),
    (b"put 't','r','f:q','v',", b"9", 18, b"", 41),
    (b"create 't','f' versions ", b"9", 9, b"", 34),
];

fn long_line(alloc: Global, row: &Longest, times: usize) -> Result<Vec<u8>, Fail> {
    let mut line = Vec::from_slice(alloc, row.0)?;
    for _ in 0..times {
        line.extend_from_slice(row.1)?;
    }
    line.extend_from_slice(row.3)?;
    Ok(line)
}

#[test]
fn longest_lines(rt: HostRuntime) -> Result<(), Fail> {
    for row in LONGEST {
        let good = long_line(rt.alloc(), &row, row.2)?;
        assert_eq!(rt;
            found(rt.alloc(), good.as_slice(), false),
            None,
            "before {}",
            row.4
        );
        let bad = long_line(rt.alloc(), &row, row.2.saturating_add(1))?;
        assert_eq!(rt; found(rt.alloc(), bad.as_slice(), false), Some((1, row.4)));
    }
    Ok(())
}
