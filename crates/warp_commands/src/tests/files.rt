//! The files of a connection: what is looked for and read, and what a fault of theirs leaves.

use super::{Scene, THREE, over_the_site, repeated, whole};
use std::test::Fail;

const BIG: &[u8] = b"GET /big.bin HTTP/1.1\r\nHost: a\r\n\r\n";

const BIG_HEAD: &[u8] =
    b"HTTP/1.1 200 OK\r\nDate: Sun, 06 Nov 1994 08:49:37 GMT\r\nServer: warp-profile\r\nContent-Type: application/octet-stream\r\nContent-Length: 40000\r\n\r\n";

#[test]
fn a_file_that_is_asked_for_twice_is_looked_for_once(rt: HostRuntime) -> Result<(), Fail> {
    let alloc = rt.alloc();
    let words = ["connection", "site"];
    let twice = b"GET /a.txt HTTP/1.1\r\nHost: a\r\n\r\nGET /a.txt HTTP/1.1\r\nHost: a\r\n\r\n";
    let outcome = over_the_site(alloc, &words, whole(alloc, twice)?, Scene::fair(alloc))?;
    assert_eq!(rt; outcome.status, 0);
    assert_eq!(rt; outcome.sent.len(), 2 * 1_141);
    assert_eq!(rt; outcome.finds, 1);
    let outcome = over_the_site(alloc, &words, whole(alloc, THREE)?, Scene::fair(alloc))?;
    assert_eq!(rt; outcome.finds, 2);
    Ok(())
}

#[test]
fn a_file_is_read_in_three_parts_and_a_part_that_fails_ends_what_is_sent(
    rt: HostRuntime,
) -> Result<(), Fail> {
    let alloc = rt.alloc();
    let mut all = BIG_HEAD.to_vec(alloc)?;
    all.extend_from_slice(&repeated(alloc, 40_000, 0, 151)?)?;
    // The root is the first call, the look the second, and the parts come then.
    for (call, status, sent) in [
        (2, 5, 0),
        (3, 5, 141),
        (4, 5, 141 + 16_384),
        (5, 5, 141 + 32_768),
        (6, 0, 40_141),
    ] {
        let scene = Scene {
            failing: vec![in alloc; call]?,
            ..Scene::fair(alloc)
        };
        let outcome = over_the_site(alloc, &["connection", "site"], whole(alloc, BIG)?, scene)?;
        assert_eq!(rt; outcome.status, status, "call {call}");
        assert!(rt; all.starts_with(&outcome.sent), "call {call}");
        assert_eq!(rt; outcome.sent.len(), sent, "call {call}");
    }
    Ok(())
}

#[test]
fn each_call_of_the_files_may_fail(rt: HostRuntime) -> Result<(), Fail> {
    let alloc = rt.alloc();
    let words = ["connection", "site"];
    let fair = over_the_site(alloc, &words, whole(alloc, THREE)?, Scene::fair(alloc))?;
    assert_eq!(rt; fair.sent.len(), 1_422);
    // After the root: a look and a part for each of two files. The third request has a file that is open.
    for call in 2..8u64 {
        let scene = Scene {
            failing: vec![in alloc; call]?,
            ..Scene::fair(alloc)
        };
        let outcome = over_the_site(alloc, &words, whole(alloc, THREE)?, scene)?;
        let status = if call < 6 { 5 } else { 0 };
        assert_eq!(rt; outcome.status, status, "call {call}");
        assert!(rt; fair.sent.starts_with(&outcome.sent), "call {call}");
    }
    Ok(())
}
