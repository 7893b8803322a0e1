// Which end comes of which cause, and what each link got until then.

use super::{Scene, served};
use std::alloc::{AllocError, Global};
use std::process::Abort;
use std::sync::Wait;
use std::test::Fail;
use std::thread::Threads;

const LINES: &[u8] = b"listening\nconnections 1\n";

/// How many bytes answer the request that each link makes: a head of 137, and the page.
const ANSWER_BYTES: u64 = 140;

/// Asserts the status, the output and the line for errors of a server with one dispatcher and one connection.
fn ends<R: Threads + Wait + Abort + Sync>(
    rt: &R,
    alloc: Global,
    what: &str,
    scene: Scene,
    status: u8,
    out: &[u8],
    errors: &[u8],
) -> Result<(), AllocError> {
    let outcome = served(rt, alloc, "1", "1", scene)?;
    assert_eq!(rt; outcome.status, status, "{what}");
    assert_eq!(rt; outcome.out.as_slice(), out, "{what}");
    assert_eq!(rt; outcome.errors.as_slice(), errors, "{what}");
    Ok(())
}

#[test]
fn accepts_that_fail_before_the_first_link_are_borne(rt: HostRuntime) -> Result<(), Fail> {
    for fails in [0, 1, 999] {
        let scene = Scene::fair(rt.alloc(), fails, 1)?;
        let outcome = served(&rt, rt.alloc(), "1", "1", scene)?;
        assert_eq!(rt; outcome.status, 0, "{fails}");
        assert_eq!(rt; outcome.out.as_slice(), LINES, "{fails}");
        assert_eq!(rt; outcome.errors.as_slice(), b"".as_slice(), "{fails}");
        assert_eq!(rt;
            (outcome.clean, outcome.bytes),
            (1, ANSWER_BYTES),
            "{fails}"
        );
    }
    Ok(())
}

#[test]
fn a_thousand_accepts_in_a_row_that_fail_end_a_server(rt: HostRuntime) -> Result<(), Fail> {
    let alloc = rt.alloc();
    let scene = Scene::fair(alloc, 1_000, 1)?;
    ends(
        &rt,
        alloc,
        "accepts",
        scene,
        9,
        b"listening\n",
        b"accept fault\n",
    )?;
    Ok(())
}

#[test]
fn a_poll_that_fails_ends_a_server(rt: HostRuntime) -> Result<(), Fail> {
    let alloc = rt.alloc();
    for number in [1, 2] {
        let mut scene = Scene::fair(alloc, 0, 0)?;
        scene.failing_polls = vec![in alloc; number]?;
        ends(
            &rt,
            alloc,
            "a poll",
            scene,
            8,
            b"listening\n",
            b"poll fault\n",
        )?;
    }
    Ok(())
}

#[test]
fn a_server_that_cannot_listen_prints_nothing(rt: HostRuntime) -> Result<(), Fail> {
    let alloc = rt.alloc();
    let mut scene = Scene::fair(alloc, 0, 1)?;
    scene.cannot_listen = true;
    ends(&rt, alloc, "a listen", scene, 12, b"", b"cannot listen\n")?;
    let mut scene = Scene::fair(alloc, 0, 1)?;
    scene.kits = 0;
    ends(&rt, alloc, "no kit", scene, 12, b"", b"cannot listen\n")?;
    let outcome = served(&rt, alloc, "3", "1", Scene::fair(alloc, 0, 1)?)?;
    assert_eq!(rt; outcome.status, 12, "two kits for three dispatchers");
    Ok(())
}

#[test]
fn an_output_without_room_gets_the_front_of_the_lines(rt: HostRuntime) -> Result<(), Fail> {
    let alloc = rt.alloc();
    for front in ["", "listening", "listening\n", "listening\nconnections 1"] {
        let mut scene = Scene::fair(alloc, 0, 1)?;
        scene.room = front.len();
        ends(&rt, alloc, "a line", scene, 11, front.as_bytes(), b"")?;
    }
    let mut scene = Scene::fair(alloc, 0, 1)?;
    scene.room = LINES.len();
    ends(&rt, alloc, "both lines", scene, 0, LINES, b"")?;
    Ok(())
}

#[test]
fn a_root_that_is_absent_or_fails_is_served_by_no_one(rt: HostRuntime) -> Result<(), Fail> {
    let alloc = rt.alloc();
    let mut scene = Scene::fair(alloc, 0, 1)?;
    scene.present = false;
    ends(&rt, alloc, "absent", scene, 7, b"", b"no such folder\n")?;
    let mut scene = Scene::fair(alloc, 0, 1)?;
    scene.failing_files = vec![in alloc; 1u64]?;
    ends(&rt, alloc, "a look", scene, 5, b"", b"file fault\n")?;
    Ok(())
}

#[test]
fn two_dispatchers_answer_each_link(rt: HostRuntime) -> Result<(), Fail> {
    let alloc = rt.alloc();
    let outcome = served(&rt, alloc, "2", "3", Scene::fair(alloc, 2, 3)?)?;
    assert_eq!(rt; outcome.status, 0);
    assert_eq!(rt;
        outcome.out.as_slice(),
        b"listening\nconnections 3\n".as_slice()
    );
    assert_eq!(rt; (outcome.clean, outcome.bytes), (3, 3 * ANSWER_BYTES));
    Ok(())
}

#[test]
fn links_beyond_the_limit_are_not_accepted(rt: HostRuntime) -> Result<(), Fail> {
    let alloc = rt.alloc();
    let outcome = served(&rt, alloc, "1", "2", Scene::fair(alloc, 0, 3)?)?;
    assert_eq!(rt; outcome.status, 0);
    assert_eq!(rt;
        outcome.out.as_slice(),
        b"listening\nconnections 2\n".as_slice()
    );
    assert_eq!(rt; (outcome.clean, outcome.bytes), (2, 2 * ANSWER_BYTES));
    Ok(())
}
