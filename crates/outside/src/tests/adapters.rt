//! The adapters over readers, writers, files and clocks that fail where a test wants them to.
use crate::retry::read_once_at;
use crate::{
    Clock, Files, FindOut, Link, OsClock, OsFiles, PartOut, ReadOut, RootOut, Sink, SinkOut,
    StdLink, StdSink, WriteOut,
};
use std::cell::Cell;
use std::io::{Error, ErrorKind, Read, Write};
use std::os::fd::AsRawFd;
use std::os::unix::fs::{FileExt, symlink};
use std::sync::Arc;
use std::test::Fail;
use std::time::Duration;
use std::{fs, io, rt};

/// A peer whose first step a signal interrupts, whose second one moves a byte, and whose third one fails.
#[derive(Drop)]
struct Faulty {
    steps: u8,
}

impl Faulty {
    fn step(&mut self) -> io::Result<usize> {
        self.steps = self.steps.saturating_add(1);
        match self.steps {
            1 => Err(Error::from(ErrorKind::Interrupted)),
            2 => Ok(1),
            3 => Err(Error::from(ErrorKind::ConnectionReset)),
            _ => Ok(0),
        }
    }
}

impl Read for Faulty {
    fn read(&mut self, buf: &mut [u8]) -> io::Result<usize> {
        Ok(self.step()?.min(buf.len()))
    }
}

impl Write for Faulty {
    fn write(&mut self, piece: &[u8]) -> io::Result<usize> {
        Ok(self.step()?.min(piece.len()))
    }

    fn flush(&mut self) -> io::Result<()> {
        Ok(())
    }
}

#[test]
fn a_std_link_takes_an_interrupted_step_again_and_answers_the_others(rt: HostRuntime) {
    let mut link = StdLink::new(Faulty { steps: 0 }, Faulty { steps: 0 });
    let mut buf = [0u8; 4];
    for answer in [ReadOut::Got(1), ReadOut::Failed, ReadOut::End] {
        assert_eq!(rt; link.read(&mut buf), answer);
    }
    for answer in [WriteOut::Took(1), WriteOut::Failed, WriteOut::Took(0)] {
        assert_eq!(rt; link.write(b"ab"), answer);
    }
}

#[test]
fn a_std_sink_stores_a_piece_whole_or_fails(rt: HostRuntime) -> Result<(), Fail> {
    let mut lines = Vec::new(rt.alloc());
    let mut sink = StdSink::new(&mut lines);
    assert_eq!(rt; sink.put(b"one\n"), SinkOut::Stored);
    assert_eq!(rt; sink.put(b"two\n"), SinkOut::Stored);
    drop(sink);
    assert!(rt; lines.as_slice() == b"one\ntwo\n".as_slice());
    let mut faulty = StdSink::new(Faulty { steps: 0 });
    assert_eq!(rt; faulty.put(b"a"), SinkOut::Stored);
    assert_eq!(rt; faulty.put(b"b"), SinkOut::Failed);
    Ok(())
}

/// A system whose clock tells a second, or fails.
#[derive(Drop)]
struct Watch {
    second: Cell<Option<u64>>,
}

impl rt::Clock for Watch {
    fn monotonic(&self) -> io::Result<Duration> {
        self.since_1970()
    }

    fn since_1970(&self) -> io::Result<Duration> {
        match self.second.get() {
            Some(second) => Ok(Duration::from_secs(second)),
            None => Err(Error::from(ErrorKind::Unsupported)),
        }
    }
}

#[test]
fn the_system_clock_repeats_its_last_moment_where_it_fails(rt: HostRuntime) -> Result<(), Fail> {
    let second = Cell::new(None);
    let watch = Arc::new(rt.alloc(), Watch { second })?;
    let mut clock = OsClock::new(Arc::try_clone(&watch)?);
    for (second, moment) in [(None, 0), (Some(784111777), 784111777), (None, 784111777)] {
        watch.second.set(second);
        assert_eq!(rt; clock.now(), moment);
    }
    Ok(())
}

#[test]
fn the_system_files_are_found_below_the_root(rt: HostRuntime) -> Result<(), Fail> {
    let site = "site_of_the_files_test";
    fs::create_dir_all(&rt, "site_of_the_files_test/sub")?;
    fs::write(&rt, "site_of_the_files_test/a.txt", b"hello".as_slice())?;
    let mut files = OsFiles::new(rt.alloc(), Arc::new(rt.alloc(), &rt)?);
    assert!(rt; matches!(files.find("a.txt"), FindOut::Absent));
    for (root, answer) in [
        ("no_such_site", RootOut::Absent),
        ("site_of_the_files_test/a.txt", RootOut::Absent),
        (site, RootOut::Present),
    ] {
        assert_eq!(rt; files.root(root), answer);
    }
    for path in ["b.txt", "sub", "a.txt/b.txt", "sub/a.txt"] {
        assert!(rt; matches!(files.find(path), FindOut::Absent), "{path}");
    }
    let FindOut::Found(mut opened) = files.find("a.txt") else {
        panic!(rt; "a.txt stands there");
    };
    assert_eq!(rt; opened.size, 5);
    assert!(rt; opened.mtime > 0);
    for (at, answer, bytes) in [
        (0, PartOut::Got(3), b"hel".as_slice()),
        (3, PartOut::Got(2), b"lo".as_slice()),
        (5, PartOut::Failed, b"".as_slice()),
    ] {
        let mut buf = [0u8; 3];
        assert_eq!(rt; files.read_at(&mut opened.file, at, &mut buf), answer);
        assert!(rt; buf.starts_with(bytes));
    }
    fs::remove_dir_all(&rt, site)?;
    Ok(())
}

#[test]
fn a_small_file_keeps_its_content_and_a_big_one_that_shrinks_fails(
    rt: HostRuntime,
) -> Result<(), Fail> {
    let site = "site_of_the_content_test";
    fs::create_dir_all(&rt, site)?;
    let long = vec![in rt.alloc(); b'x'; 16_385]?;
    fs::write(&rt, "site_of_the_content_test/small", b"hello".as_slice())?;
    fs::write(&rt, "site_of_the_content_test/empty", b"".as_slice())?;
    fs::write(&rt, "site_of_the_content_test/whole", &long[1..])?;
    fs::write(&rt, "site_of_the_content_test/big", long.as_slice())?;
    let mut files = OsFiles::new(rt.alloc(), Arc::new(rt.alloc(), &rt)?);
    assert_eq!(rt; files.root(site), RootOut::Present);
    for (path, size, answer) in [
        ("small", 5, PartOut::Got(4)),
        ("empty", 0, PartOut::Failed),
        ("whole", 16_384, PartOut::Got(4)),
        ("big", 16_385, PartOut::Failed),
    ] {
        let FindOut::Found(mut opened) = files.find(path) else {
            panic!(rt; "{path} stands there");
        };
        assert_eq!(rt; opened.size, size);
        let full = format!(in rt.alloc(); "{site}/{path}")?;
        fs::write(&rt, full.as_str(), b"".as_slice())?;
        let mut buf = [0u8; 4];
        assert_eq!(rt;
            files.read_at(&mut opened.file, 0, &mut buf),
            answer,
            "{path}"
        );
    }
    fs::remove_dir_all(&rt, site)?;
    Ok(())
}

#[test]
fn links_are_followed_and_what_is_no_file_is_absent(rt: HostRuntime) -> Result<(), Fail> {
    let site = "site_of_the_links_test";
    fs::create_dir_all(&rt, "site_of_the_links_test/sub")?;
    fs::write(
        &rt,
        "site_of_the_links_test/a\u{e9}\n.txt",
        b"hello".as_slice(),
    )?;
    let (reader, writer) = io::pipe(&rt)?;
    let pipe = format!(in rt.alloc(); "/proc/self/fd/{}", reader.as_raw_fd())?;
    for (name, place) in [
        ("file", "a\u{e9}\n.txt"),
        ("folder", "sub"),
        ("nowhere", "no_such_file"),
        ("circle", "circle"),
        ("pipe", pipe.as_str()),
        ("device", "/dev/null"),
    ] {
        let full = format!(in rt.alloc(); "{site}/{name}")?;
        symlink(&rt, place, full.as_str())?;
    }
    let mut files = OsFiles::new(rt.alloc(), Arc::new(rt.alloc(), &rt)?);
    assert_eq!(rt; files.root(site), RootOut::Present);
    for path in [
        "folder", "nowhere", "circle", "pipe", "device", "circle/a", "file/a",
    ] {
        assert!(rt; matches!(files.find(path), FindOut::Absent), "{path}");
    }
    for path in ["file", "a\u{e9}\n.txt"] {
        assert!(rt;
            matches!(files.find(path), FindOut::Found(opened) if opened.size == 5),
            "{path}"
        );
    }
    drop(reader);
    drop(writer);
    fs::remove_dir_all(&rt, site)?;
    Ok(())
}

/// A file whose first read a signal interrupts.
#[derive(Drop)]
struct Interrupted {
    once: Cell<bool>,
}

impl FileExt for Interrupted {
    fn read_at(&self, buf: &mut [u8], _offset: u64) -> io::Result<usize> {
        if self.once.replace(false) {
            Err(Error::from(ErrorKind::Interrupted))
        } else {
            Ok(1.min(buf.len()))
        }
    }

    fn write_at(&self, _buf: &[u8], _offset: u64) -> io::Result<usize> {
        Err(Error::from(ErrorKind::Unsupported))
    }
}

#[test]
fn an_interrupted_read_of_a_file_is_tried_again(rt: HostRuntime) {
    let file = Interrupted {
        once: Cell::new(true),
    };
    let mut buf = [0u8; 4];
    assert!(rt; matches!(read_once_at(&file, &mut buf, 0), Ok(1)));
}

/// Takes what may move to another thread.
fn moves<X: Send>(_moved: &X) {}

#[test]
fn the_system_files_and_time_may_move_to_another_thread(rt: HostRuntime) -> Result<(), Fail> {
    let rt = Arc::new(rt.alloc(), rt)?;
    let site = "site_of_the_threads_test";
    fs::create_dir_all(&*rt, site)?;
    fs::write(&*rt, "site_of_the_threads_test/a.txt", b"hello".as_slice())?;
    let mut files = OsFiles::new(rt.alloc(), Arc::try_clone(&rt)?);
    assert_eq!(*rt; files.root(site), RootOut::Present);
    if let FindOut::Found(opened) = files.find("a.txt") {
        moves(&opened.file);
    }
    moves(&files);
    moves(&OsClock::new(Arc::try_clone(&rt)?));
    fs::remove_dir_all(&*rt, site)?;
    Ok(())
}
