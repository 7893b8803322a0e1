//! Worked targets and paths, each with what the rules give for it.
use crate::{PathBuf8, Route, content_type, query, raw_path, route};
use std::alloc::{AllocError, Global};
use std::process::Abort;
use std::test::Fail;
use warp_response::Kind;

/// Compares what each target stands for, and the path that is left, with the row.
fn check(rt: &impl Abort, alloc: Global, rows: &[(&[u8], Route, &str)]) -> Result<(), Fail> {
    let mut out = PathBuf8::new(alloc)?;
    for (target, expected, path) in rows {
        assert_eq!(rt; route(target, &mut out), *expected, "{path} of {target:?}");
        assert_eq!(rt; out.text(), *path, "of {target:?}");
    }
    Ok(())
}

#[test]
fn a_target_stands_for_a_path_below_the_folder(rt: HostRuntime) -> Result<(), Fail> {
    let rows = [
        (b"/".as_slice(), Route::Index, "index.html"),
        (b"/a.txt", Route::Path, "a.txt"),
        (b"/%61.txt", Route::Path, "a.txt"),
        (b"/sub", Route::Path, "sub"),
        (b"/sub?q=1", Route::Path, "sub"),
        (b"/sub/", Route::Index, "sub/index.html"),
        (b"/a/b/c", Route::Path, "a/b/c"),
        (b"/?/../x", Route::Index, "index.html"),
        (b"/a.b..c", Route::Path, "a.b..c"),
        (b"/a%20b", Route::Path, "a b"),
        (b"/%E2%82%ac", Route::Path, "\u{20ac}"),
        (b"http://a/a.txt", Route::Path, "a.txt"),
        (b"hTTpS://a:80/sub/?x", Route::Index, "sub/index.html"),
        (b"http://a", Route::Index, "index.html"),
        (b"http://a?/x", Route::Index, "index.html"),
    ];
    check(&rt, rt.alloc(), &rows)
}

#[test]
fn a_segment_is_decoded_once_and_a_lone_percent_stands_for_itself(
    rt: HostRuntime,
) -> Result<(), Fail> {
    let rows = [
        (b"/%2561".as_slice(), Route::Path, "%61"),
        (b"/%252e%252e/x", Route::Path, "%2e%2e/x"),
        (b"/100%", Route::Path, "100%"),
        (b"/a%2", Route::Path, "a%2"),
        (b"/%zz%6g", Route::Path, "%zz%6g"),
        (b"/%%41", Route::Path, "%A"),
    ];
    check(&rt, rt.alloc(), &rows)
}

#[test]
fn what_could_leave_the_folder_or_name_something_hidden_is_not_found(
    rt: HostRuntime,
) -> Result<(), Fail> {
    let rows = [
        (b"/..".as_slice(), Route::NotFound, ""),
        (b"/../x", Route::NotFound, ""),
        (b"/a/../../x", Route::NotFound, ""),
        (b"/%2e%2e/x", Route::NotFound, ""),
        (b"/.%2E/x", Route::NotFound, ""),
        (b"/./a", Route::NotFound, ""),
        (b"/a/.", Route::NotFound, ""),
        (b"/.x", Route::NotFound, ""),
        (b"/%2ex/a", Route::NotFound, ""),
        (b"/a%2Fb", Route::NotFound, ""),
        (b"/a%2fb/c", Route::NotFound, ""),
        (b"/a%5Cb", Route::NotFound, ""),
        (b"/a\\b", Route::NotFound, ""),
        (b"/a%00", Route::NotFound, ""),
        (b"/a\x00/b", Route::NotFound, ""),
    ];
    check(&rt, rt.alloc(), &rows)
}

#[test]
fn an_empty_segment_that_is_not_the_last_is_not_found(rt: HostRuntime) -> Result<(), Fail> {
    let rows = [
        (b"//".as_slice(), Route::NotFound, ""),
        (b"//sub", Route::NotFound, ""),
        (b"/a//b", Route::NotFound, ""),
        (b"/a//", Route::NotFound, ""),
        (b"http://a//b", Route::NotFound, ""),
    ];
    check(&rt, rt.alloc(), &rows)
}

#[test]
fn a_segment_that_is_no_text_is_not_found(rt: HostRuntime) -> Result<(), Fail> {
    let rows = [
        (b"/%ff".as_slice(), Route::NotFound, ""),
        (b"/\xff/a", Route::NotFound, ""),
        (b"/%e2%82", Route::NotFound, ""),
        (b"/%e2%82/%ac", Route::NotFound, ""),
        (b"/%c0%af", Route::NotFound, ""),
        (b"/%ed%a0%80", Route::NotFound, ""),
        (b"/%f4%90%80%80", Route::NotFound, ""),
    ];
    check(&rt, rt.alloc(), &rows)
}

#[test]
fn a_target_of_another_form_is_not_found(rt: HostRuntime) -> Result<(), Fail> {
    let rows = [
        (b"".as_slice(), Route::NotFound, ""),
        (b"*", Route::NotFound, ""),
        (b"a.txt", Route::NotFound, ""),
        (b"ftp://a/a.txt", Route::NotFound, ""),
        (b"http:/a.txt", Route::NotFound, ""),
        (b"http://", Route::NotFound, ""),
        (b"http:///a.txt", Route::NotFound, ""),
        (b"https://?a", Route::NotFound, ""),
    ];
    check(&rt, rt.alloc(), &rows)
}

/// `/`, the folders, each 255 letters `a` and a `/`, and the letters `b` of a last segment.
fn long_target(alloc: Global, folders: usize, last: usize) -> Result<Vec<u8>, AllocError> {
    let mut target = Vec::new(alloc);
    target.push(b'/')?;
    for _ in 0..folders {
        for _ in 0..255 {
            target.push(b'a')?;
        }
        target.push(b'/')?;
    }
    for _ in 0..last {
        target.push(b'b')?;
    }
    Ok(target)
}

#[test]
fn a_name_has_255_bytes_and_a_path_3900(rt: HostRuntime) -> Result<(), Fail> {
    let rows = [
        (0, 255, Route::Path, 255),
        (0, 256, Route::NotFound, 0),
        (15, 60, Route::Path, 3_900),
        (15, 61, Route::NotFound, 0),
        (15, 0, Route::Index, 3_840 + 10),
        (32, 0, Route::NotFound, 0),
        (33, 1, Route::NotFound, 0),
    ];
    let mut out = PathBuf8::new(rt.alloc())?;
    for (folders, last, expected, bytes) in rows {
        let target = long_target(rt.alloc(), folders, last)?;
        assert_eq!(rt;
            route(&target, &mut out),
            expected,
            "{folders} folders and {last} bytes"
        );
        assert_eq!(rt; out.len(), bytes, "{folders} folders and {last} bytes");
    }
    Ok(())
}

#[test]
fn the_last_slash_counts_and_the_index_does_not(rt: HostRuntime) -> Result<(), Fail> {
    let mut out = PathBuf8::new(rt.alloc())?;
    for (last, expected, bytes) in [(59, Route::Index, 3_910), (60, Route::NotFound, 0)] {
        let mut target = long_target(rt.alloc(), 15, last)?;
        target.push(b'/')?;
        assert_eq!(rt;
            route(&target, &mut out),
            expected,
            "{last} bytes and a slash"
        );
        assert_eq!(rt; out.len(), bytes, "{last} bytes and a slash");
    }
    Ok(())
}

#[test]
fn the_length_of_a_name_is_that_of_its_decoded_bytes(rt: HostRuntime) -> Result<(), Fail> {
    let mut out = PathBuf8::new(rt.alloc())?;
    for (bytes, expected) in [(255, Route::Path), (256, Route::NotFound)] {
        let mut target = Vec::new(rt.alloc());
        target.push(b'/')?;
        for _ in 0..bytes {
            target.extend_from_slice(b"%61")?;
        }
        assert_eq!(rt; route(&target, &mut out), expected, "{bytes} bytes");
    }
    Ok(())
}

#[test]
fn the_raw_path_and_the_query_stand_in_the_target(rt: HostRuntime) {
    let rows = [
        (b"/sub?q=1".as_slice(), (0, 4), Some((5, 8))),
        (b"/", (0, 1), None),
        (b"/?", (0, 1), Some((2, 2))),
        (b"/a?b?c", (0, 2), Some((3, 6))),
        (b"http://a/b?c", (8, 10), Some((11, 12))),
        (b"hTTps://a/", (9, 10), None),
        (b"https://a", (9, 9), None),
        (b"http://a?x", (8, 8), Some((9, 10))),
        (b"*", (0, 0), None),
        (b"a?b", (0, 0), Some((2, 3))),
    ];
    for (target, raw, asked) in rows {
        assert_eq!(rt; raw_path(target), raw, "of {target:?}");
        assert_eq!(rt; query(target), asked, "of {target:?}");
    }
}

#[test]
fn an_ending_has_its_kind_in_any_case_of_letters(rt: HostRuntime) {
    let rows = [
        ("index.html", Kind::Html),
        ("a.htm", Kind::Html),
        ("A.HTML", Kind::Html),
        ("a.txt", Kind::Plain),
        ("a.css", Kind::Css),
        ("a.js", Kind::JavaScript),
        ("a.json", Kind::Json),
        ("a.Xml", Kind::Xml),
        ("a.svg", Kind::Svg),
        ("a.png", Kind::Png),
        ("a.jpg", Kind::Jpeg),
        ("a.jpeg", Kind::Jpeg),
        ("a.tar.gIF", Kind::Gif),
        ("a.html/b", Kind::OctetStream),
        ("html", Kind::OctetStream),
        ("a.", Kind::OctetStream),
        ("a.htmlx", Kind::OctetStream),
        ("", Kind::OctetStream),
    ];
    for (path, kind) in rows {
        assert_eq!(rt; content_type(path), kind, "of {path}");
    }
}

#[test]
fn a_path_buffer_holds_8192_bytes(rt: HostRuntime) -> Result<(), Fail> {
    let mut path = PathBuf8::new(rt.alloc())?;
    for _ in 0..1_024 {
        assert!(rt; path.add("8 bytes."));
    }
    assert_eq!(rt; path.len(), 8_192);
    assert!(rt; !path.add("a"));
    assert!(rt; path.add(""));
    assert_eq!(rt; path.len(), 8_192);
    path.clear();
    assert!(rt; path.add("a"));
    assert_eq!(rt; path.text(), "a");
    Ok(())
}
