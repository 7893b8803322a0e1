//! Worked values of the load, and each call once.
use crate::{
    Load, LoadPlace, RequestKind, Sums, dispatchers_in, expected, load_files, load_in,
    load_scripts, number_in,
};
use outside::MemFiles;
use poller::{MemNet, Script};
use std::process::Abort;
use std::test::Fail;

/// The load of these numbers, which are in their ranges.
fn load(seed: u64, connections: u64, requests: u64) -> Result<Load, &'static str> {
    Load::new(seed, connections, requests).ok_or("no load")
}

/// Takes what may move to another thread.
fn moves<X: Send>(_moved: &X) {}

/// A step as it is written in a table: its piece, and what it allows to be written.
type Row = (&'static [u8], u32);

/// Checks that a script has these steps and this room.
fn check_script(rt: &impl Abort, script: &Script, rows: &[Row], room: usize) {
    assert_eq!(rt; script.steps.len(), rows.len());
    for (k, (step, row)) in script.steps.iter().zip(rows).enumerate() {
        assert_eq!(rt; step.piece.as_slice(), row.0, "step {k}");
        assert_eq!(rt; step.allowance, row.1, "step {k}");
    }
    assert_eq!(rt; script.room, room);
}

#[test]
fn each_kind_has_the_length_of_its_answer(rt: HostRuntime) {
    let rows = [
        (RequestKind::Index, 140),
        (RequestKind::Text, 1141),
        (RequestKind::TextHead, 141),
        (RequestKind::Big, 40_141),
        (RequestKind::Absent, 104),
        (RequestKind::Folder, 133),
        (RequestKind::Posted, 140),
        (RequestKind::Browser, 141),
    ];
    let mut sum = 0u64;
    for (kind, bytes) in rows {
        assert_eq!(rt; kind.answer_length(), bytes, "{kind:?}");
        sum = sum.saturating_add(bytes);
    }
    assert_eq!(rt; sum, 42_081);
}

#[test]
fn sums_of_runs(rt: HostRuntime) -> Result<(), Fail> {
    let rows = [
        (load(7, 200, 20)?, 4000, 21_040_500, "each kind 500 times"),
        (load(0, 1, 1)?, 1, 140, "the stored run"),
        (load(3, 1, 8)?, 8, 42_081, "each kind once"),
        (
            load(0, 1, 1000)?,
            1000,
            5_260_144,
            "each kind 125 times, and the thousandth answer closes",
        ),
    ];
    for (load, requests, bytes, what) in rows {
        assert_eq!(rt; expected(load), Sums { requests, bytes }, "{what}");
    }
    Ok(())
}

#[test]
fn the_first_requests_of_a_load(rt: HostRuntime) {
    let rows = [
        (0, 0, RequestKind::Browser),
        (0, 1, RequestKind::TextHead),
        (0, 2, RequestKind::Folder),
        (1, 0, RequestKind::Absent),
        (1, 1, RequestKind::Browser),
        (2, 0, RequestKind::Text),
    ];
    for (connection, request, kind) in rows {
        assert_eq!(rt;
            RequestKind::of(7, connection, request),
            kind,
            "{connection} {request}"
        );
    }
}

#[test]
fn a_link_gets_its_input_in_pieces(rt: HostRuntime) -> Result<(), Fail> {
    let scripts = load_scripts(rt.alloc(), load(0, 1, 1)?)?;
    assert_eq!(rt; scripts.len(), 1);
    let rows: [Row; 7] = [
        (b"G", 1),
        (b"ET", 8),
        (b" / ", 15),
        (b"HTTP", 22),
        (b"/1.1\r", 29),
        (b"\nHost:", 36),
        (b" a\r\n\r\n", 43),
    ];
    check_script(&rt, &scripts[0], &rows, 140);
    Ok(())
}

#[test]
fn a_later_link_gets_other_pieces(rt: HostRuntime) -> Result<(), Fail> {
    let scripts = load_scripts(rt.alloc(), load(7, 2, 1)?)?;
    assert_eq!(rt; scripts.len(), 2);
    let rows: [Row; 4] = [
        (b"GET /nope", 11),
        (b" HTTP/1.1\r", 18),
        (b"\nHost: a\r\n\r", 25),
        (b"\n", 32),
    ];
    check_script(&rt, &scripts[1], &rows, 104);
    Ok(())
}

#[test]
fn a_net_takes_the_scripts(rt: HostRuntime) -> Result<(), Fail> {
    let scripts = load_scripts(rt.alloc(), load(7, 3, 8)?)?;
    let (_listener, pollers) = MemNet::new(rt.alloc(), scripts, 2)?;
    assert_eq!(rt; pollers.len(), 2);
    Ok(())
}

#[test]
fn the_files_are_those_of_the_place(rt: HostRuntime) -> Result<(), Fail> {
    let alloc = rt.alloc();
    let contents = load_files(alloc)?;
    let rows = [
        ("index.html", 3),
        ("a.txt", 1000),
        ("big.bin", 40_000),
        ("sub/index.html", 4),
    ];
    assert_eq!(rt; contents.len(), rows.len());
    for (file, (path, length)) in contents.iter().zip(rows.iter()) {
        assert_eq!(rt; file.path.as_str(), *path);
        assert_eq!(rt; file.bytes.len(), *length, "{path}");
        assert_eq!(rt; file.mtime, 784_111_777);
    }
    assert_eq!(rt;
        contents[1].bytes.get(26).copied(),
        Some(b'a'),
        "after z comes a"
    );
    assert_eq!(rt;
        contents[2].bytes.get(251).copied(),
        Some(0),
        "after 250 comes 0"
    );
    let files: MemFiles<LoadPlace> = MemFiles::new(alloc, contents, true, Vec::new(alloc));
    assert_eq!(rt; files.finds(), 0);
    moves(&files);
    Ok(())
}

#[test]
fn words_of_a_load(rt: HostRuntime) {
    let rows = [
        ("7", "200", "20", true, "a load"),
        ("0000000007", "0200", "020", true, "leading zeros"),
        ("00000000007", "200", "20", false, "eleven digits"),
        ("4294967295", "4000", "5", true, "the largest of each"),
        ("4294967296", "4000", "5", false, "a seed of 33 bits"),
        ("0", "1", "1000", true, "the most requests"),
        ("0", "1", "1001", false, "too many requests"),
        ("0", "4001", "1", false, "too many connections"),
        ("0", "4000", "6", false, "too many requests in all"),
        ("0", "0", "1", false, "no connection"),
        ("0", "1", "0", false, "no request"),
        ("", "1", "1", false, "an empty word"),
        ("+7", "200", "20", false, "a sign"),
        ("-7", "200", "20", false, "a sign"),
        ("7", "2 00", "20", false, "a space"),
    ];
    for (seed, connections, requests, is, what) in rows {
        assert_eq!(rt;
            load_in(seed, connections, requests).is_some(),
            is,
            "{what}"
        );
    }
}

#[test]
fn words_of_numbers(rt: HostRuntime) {
    assert_eq!(rt; number_in("0042"), Some(42));
    assert_eq!(rt; number_in("9999999999"), Some(9_999_999_999));
    assert_eq!(rt; number_in("4a"), None);
    assert_eq!(rt; dispatchers_in("0"), None);
    assert_eq!(rt; dispatchers_in("1"), Some(1));
    assert_eq!(rt; dispatchers_in("64"), Some(64));
    assert_eq!(rt; dispatchers_in("65"), None);
}
