//! What lines ask for.
use crate::read_line;
use shell_line::LINE_KINDS;
use std::alloc::Global;
use std::test::Fail;

// The job of a line, as text.
fn asked(alloc: Global, line: &[u8]) -> Result<String, Fail> {
    match read_line(alloc, &LINE_KINDS, line) {
        Ok(job) => Ok(format!(in alloc; "{:?}", job)?),
        Err(_) => Ok(String::from_str(alloc, "bad")?),
    }
}

#[test]
fn jobs(rt: HostRuntime) -> Result<(), Fail> {
    let table: [(&[u8], &str); 16] = [
        (
            b"create 't','f'",
            "Create { table: TableName { text: Blob { bytes: [116] } }, families: Items { items: [FamilyName { text: Blob { bytes: [102] } }] }, versions: 1, splits: Items { items: [] } }",
        ),
        (
            b"create 't' , 'f', 'g' versions 30 splits 'm','\\xff'",
            "Create { table: TableName { text: Blob { bytes: [116] } }, families: Items { items: [FamilyName { text: Blob { bytes: [102] } }, FamilyName { text: Blob { bytes: [103] } }] }, versions: 30, splits: Items { items: [Blob { bytes: [109] }, Blob { bytes: [255] }] } }",
        ),
        (
            b"create 't','1' splits '2'",
            "Create { table: TableName { text: Blob { bytes: [116] } }, families: Items { items: [FamilyName { text: Blob { bytes: [49] } }] }, versions: 1, splits: Items { items: [Blob { bytes: [50] }] } }",
        ),
        (
            b"put 't','\\x00r','f:q:s','v\\x5c',7",
            "Put { table: TableName { text: Blob { bytes: [116] } }, cell: PutCell { row: Blob { bytes: [0, 114] }, family: FamilyName { text: Blob { bytes: [102] } }, qualifier: Blob { bytes: [113, 58, 115] }, ts: Some(7), kind: Put, value: Blob { bytes: [118, 92] } } }",
        ),
        (
            b"put '\\x74' , 'r' ,'f:', '' ",
            "Put { table: TableName { text: Blob { bytes: [116] } }, cell: PutCell { row: Blob { bytes: [114] }, family: FamilyName { text: Blob { bytes: [102] } }, qualifier: Blob { bytes: [] }, ts: None, kind: Put, value: Blob { bytes: [] } } }",
        ),
        (
            b"delete 't','r','f:q'",
            "Put { table: TableName { text: Blob { bytes: [116] } }, cell: PutCell { row: Blob { bytes: [114] }, family: FamilyName { text: Blob { bytes: [102] } }, qualifier: Blob { bytes: [113] }, ts: None, kind: DeleteColumn, value: Blob { bytes: [] } } }",
        ),
        (
            b"delete 't','r','f:1', 10 ,'version'",
            "Put { table: TableName { text: Blob { bytes: [116] } }, cell: PutCell { row: Blob { bytes: [114] }, family: FamilyName { text: Blob { bytes: [102] } }, qualifier: Blob { bytes: [49] }, ts: Some(10), kind: Delete, value: Blob { bytes: [] } } }",
        ),
        (
            b"delete 't','r','f2',0",
            "Put { table: TableName { text: Blob { bytes: [116] } }, cell: PutCell { row: Blob { bytes: [114] }, family: FamilyName { text: Blob { bytes: [102, 50] } }, qualifier: Blob { bytes: [] }, ts: Some(0), kind: DeleteFamily, value: Blob { bytes: [] } } }",
        ),
        (
            b"scan 't'",
            "Scan { table: TableName { text: Blob { bytes: [116] } } }",
        ),
        (
            b"major_compact 't'",
            "Compact { table: TableName { text: Blob { bytes: [116] } }, major: true }",
        ),
        (
            b"split 't','\\xff'",
            "Split { table: TableName { text: Blob { bytes: [116] } }, row: Blob { bytes: [255] } }",
        ),
        (
            b"snapshot 't','\\x73'",
            "Snapshot { table: TableName { text: Blob { bytes: [116] } }, snapshot: SnapName { text: Blob { bytes: [115] } } }",
        ),
        (
            b"clone_snapshot 's','t'",
            "Clone { snapshot: SnapName { text: Blob { bytes: [115] } }, table: TableName { text: Blob { bytes: [116] } } }",
        ),
        (
            b"bulkload 't','a=b'",
            "Bulk { table: TableName { text: Blob { bytes: [116] } }, folder: Blob { bytes: [97, 61, 98] } }",
        ),
        (b"list_snapshots", "ListSnapshots"),
        (b"cleaner_chore_run", "Clean"),
    ];
    for (line, want) in table {
        let found = asked(rt.alloc(), line)?;
        assert_eq!(rt; found.as_str(), want);
    }
    Ok(())
}
