// What no clause says: that the calls succeed where memory is left. And each call that is due fails in turn, and no other.

use crate::clock::Clock;
use crate::fault::{Failed, ReadFault};
use crate::folder::{FileRead, Folder, Listing};
use crate::memory_clock::MemoryClock;
use crate::memory_folder::MemoryFolder;
use crate::memory_sink::MemorySink;
use crate::memory_source::MemorySource;
use crate::sink::Sink;
use crate::source::{LINE_LIMIT, Line, Source};
use std::test::Fail;

#[test]
fn a_folder_gives_its_files_and_names(rt: HostRuntime) -> Result<(), Fail> {
    for due in 1..=4 {
        let mut folder = MemoryFolder::new(rt.alloc());
        folder.add("app/b", b"old")?;
        folder.add("app/a/x", b"")?;
        folder.add("app/b", b"new")?;
        assert_eq!(rt; folder.held().len(), 3);
        folder.fail_at(due)?;
        let names = match folder.list(rt.alloc(), "app") {
            Ok(Listing::Names(names)) => names.len() == 2 && names.item(1).as_str() == "b",
            Ok(Listing::Absent) => false,
            Err(fault) => due == 1 && fault == ReadFault::Failed,
        };
        assert!(rt; names);
        let bytes = match folder.read(rt.alloc(), "app/b", 3) {
            Ok(FileRead::Bytes(bytes)) => bytes.as_slice() == b"new".as_slice(),
            Ok(_) => false,
            Err(fault) => due == 2 && fault == ReadFault::Failed,
        };
        assert!(rt; bytes);
        let longer = match folder.read(rt.alloc(), "app/b", 2) {
            Ok(read) => matches!(read, FileRead::Longer),
            Err(fault) => due == 3 && fault == ReadFault::Failed,
        };
        assert!(rt; longer);
        assert_eq!(rt; folder.faults(), u64::from(due < 4));
    }
    Ok(())
}

#[test]
fn a_source_gives_its_lines(rt: HostRuntime) -> Result<(), Fail> {
    for due in 1..=3 {
        let mut source = MemorySource::new(rt.alloc());
        source.give(b"one\ntwo")?;
        source.fail_at(due)?;
        let mut lines = 0_u32;
        for call in 1..=4 {
            match source.line(rt.alloc()) {
                Ok(Line::Bytes(line)) => {
                    lines = lines.wrapping_add(1);
                    assert_eq!(rt; line.len(), 3);
                }
                Ok(line) => assert!(rt; matches!(line, Line::End)),
                Err(fault) => assert!(rt; call == due && fault == ReadFault::Failed),
            }
        }
        assert_eq!(rt; lines, 2);
        assert_eq!(rt; source.held().len(), 0);
        assert_eq!(rt; source.faults(), 1);
    }
    Ok(())
}

#[test]
fn a_source_takes_the_limit_of_a_long_line(rt: HostRuntime) -> Result<(), Fail> {
    let bytes = vec![in rt.alloc(); b'a'; LINE_LIMIT + 1]?;
    let mut source = MemorySource::new(rt.alloc());
    source.give(&bytes)?;
    let first = source.line(rt.alloc())?;
    assert!(rt; matches!(first, Line::TooLong));
    assert_eq!(rt; source.held().as_slice(), b"a".as_slice());
    Ok(())
}

#[test]
fn a_sink_takes_pieces_up_to_its_room(rt: HostRuntime) -> Result<(), Fail> {
    for due in 1..=3 {
        let mut sink = MemorySink::with_room(rt.alloc(), 5)?;
        sink.fail_at(due)?;
        assert_eq!(rt; sink.put(b"ab").is_ok(), due != 1);
        assert_eq!(rt; sink.put(b"cd").is_ok(), due != 2);
        assert_eq!(rt; sink.put(b"efgh"), Err(Failed));
        let held = match due {
            1 => b"cdefg".as_slice(),
            2 => b"abefg".as_slice(),
            _ => b"abcd".as_slice(),
        };
        assert_eq!(rt; sink.held(), held);
        assert_eq!(rt; sink.faults(), if due == 3 { 1 } else { 2 });
    }
    Ok(())
}

#[test]
fn a_clock_gives_its_moments(rt: HostRuntime) -> Result<(), Fail> {
    for due in 1..=3 {
        let mut clock = MemoryClock::new(rt.alloc());
        clock.add(7)?;
        clock.add(9)?;
        clock.fail_at(due)?;
        assert_eq!(rt; clock.held().len(), 2);
        assert_eq!(rt; clock.now(), if due == 1 { Err(Failed) } else { Ok(7) });
        let second = match due {
            1 => Ok(7),
            2 => Err(Failed),
            _ => Ok(9),
        };
        assert_eq!(rt; clock.now(), second);
        let third = if due == 3 { Err(Failed) } else { Ok(9) };
        assert_eq!(rt; clock.now(), third);
        assert_eq!(rt; clock.now(), Err(Failed));
        assert_eq!(rt; clock.faults(), 2);
    }
    Ok(())
}
