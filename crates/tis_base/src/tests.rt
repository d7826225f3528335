use crate::transfer::{read_all, write_all};
use crate::turns::cause_of;
use crate::{
    Dir, FileStore, MemSink, MemStore, NoMemory, OutSink, Shape, Sink, SinkError, Store,
    StoreError, Tile, TileKind, Tiles, Value, Values, lines, push_number,
};
use std::alloc::Global;
use std::io::ErrorKind;
use std::test::Fail;
use std::{fs, io};

// The values nearest to these numbers.
fn listed(alloc: Global, numbers: &[i64]) -> Result<Values, NoMemory> {
    let mut values = Values::new(alloc);
    for number in numbers {
        values.push(Value::clamp(*number))?;
    }
    Ok(values)
}

#[test]
fn a_store_in_memory_gives_what_was_put_there(rt: HostRuntime) -> Result<(), Fail> {
    let mut store = MemStore::honest(rt.alloc());
    store.set("one", b"1")?;
    assert_eq!(rt; store.get("one"), Some(b"1".as_slice()));
    assert_eq!(rt; store.get("two"), None);
    assert_eq!(rt;
        store.fetch(rt.alloc(), "two").err(),
        Some(StoreError::Missing)
    );
    store.keep("two", b"22")?;
    store.keep("one", b"")?;
    assert_eq!(rt;
        store.fetch(rt.alloc(), "two")?.as_slice(),
        b"22".as_slice()
    );
    assert_eq!(rt; store.get("one"), Some(b"".as_slice()));
    Ok(())
}

#[test]
fn a_store_in_memory_fails_the_told_calls(rt: HostRuntime) -> Result<(), Fail> {
    let mut store = MemStore::failing(rt.alloc(), listed(rt.alloc(), &[2, -1, 0])?);
    assert_eq!(rt;
        store.fetch(rt.alloc(), "one").err(),
        Some(StoreError::Failed)
    );
    assert_eq!(rt; store.keep("one", b"1"), Ok(()));
    assert_eq!(rt; store.keep("one", b"2"), Err(StoreError::Failed));
    store.set("two", b"3")?;
    assert_eq!(rt; store.fetch(rt.alloc(), "one")?.as_slice(), b"1".as_slice());
    Ok(())
}

#[test]
fn a_sink_in_memory_fails_the_told_calls(rt: HostRuntime) -> Result<(), Fail> {
    let mut honest = MemSink::honest(rt.alloc());
    let mut sink = MemSink::failing(rt.alloc(), listed(rt.alloc(), &[-2, 1])?);
    for (text, want) in [
        (b"ab".as_slice(), Ok(())),
        (b"cd".as_slice(), Err(SinkError::Failed)),
        (b"ef".as_slice(), Ok(())),
    ] {
        assert_eq!(rt; honest.put(text), Ok(()));
        assert_eq!(rt; sink.put(text), want);
    }
    assert_eq!(rt; honest.written(), b"abcdef".as_slice());
    assert_eq!(rt; sink.written(), b"abef".as_slice());
    Ok(())
}

#[test]
fn a_file_store_reads_what_it_wrote(rt: HostRuntime) -> Result<(), Fail> {
    let name = "tis_base_test_file";
    let mut store = FileStore::new(&rt);
    for text in [
        b"first and longer".as_slice(),
        b"second".as_slice(),
        b"".as_slice(),
        b"# a text that begins with a comment\n".as_slice(),
        b"\0\r\n\xff".as_slice(),
    ] {
        store.keep(name, text)?;
        assert_eq!(rt; store.fetch(rt.alloc(), name)?.as_slice(), text);
    }
    let largest = vec![in rt.alloc(); 7u8; 16777217]?;
    store.keep(name, &largest[1..])?;
    let at_most = store.fetch(rt.alloc(), name)?.len();
    store.keep(name, &largest)?;
    let too_large = store.fetch(rt.alloc(), name).err();
    fs::remove_file(&rt, name)?;
    assert_eq!(rt; at_most, 16777216);
    assert_eq!(rt; too_large, Some(StoreError::Failed));
    for (absent, want) in [
        (name, StoreError::Missing),
        ("no_such_folder/file", StoreError::Missing),
        (".", StoreError::Failed),
    ] {
        assert_eq!(rt; store.fetch(rt.alloc(), absent).err(), Some(want));
    }
    for (unwritable, want) in [
        ("no_such_folder/file", Err(StoreError::Failed)),
        (".", Err(StoreError::Failed)),
        ("/dev/full", Err(StoreError::Failed)),
    ] {
        assert_eq!(rt; store.keep(unwritable, b"1"), want);
    }
    Ok(())
}

// What a call gives that this byte of a script stands for: an error, or the byte.
fn outcome(step: u8) -> Result<u8, ErrorKind> {
    match step {
        b'I' => Err(ErrorKind::Interrupted),
        b'M' => Err(ErrorKind::OutOfMemory),
        b'N' => Err(ErrorKind::NotFound),
        b'F' => Err(ErrorKind::Other),
        byte => Ok(byte),
    }
}

// A reader that gives the bytes of a script one at a time, with its errors among them.
#[derive(Drop)]
struct Script<'a> {
    steps: &'a [u8],
}

impl io::Read for Script<'_> {
    fn read(&mut self, buffer: &mut [u8]) -> io::Result<usize> {
        let Some((step, rest)) = self.steps.split_first() else {
            return Ok(0);
        };
        if buffer.is_empty() {
            return Ok(0);
        }
        self.steps = rest;
        buffer[0] = outcome(*step)?;
        Ok(1)
    }
}

#[test]
fn a_read_that_is_interrupted_is_tried_again(rt: HostRuntime) {
    for (steps, want) in [
        ("", Ok("")),
        ("aIbII", Ok("ab")),
        ("aFb", Err(StoreError::Failed)),
        ("IN", Err(StoreError::Failed)),
        ("aMb", Err(StoreError::NoMemory)),
    ] {
        let steps = steps.as_bytes();
        match read_all(rt.alloc(), &mut Script { steps }) {
            Ok(bytes) => assert!(rt; Ok(bytes.as_slice()) == want.map(|text| text.as_bytes())),
            Err(error) => assert_eq!(rt; Some(error), want.err()),
        }
    }
}

// A reader that fills so many buffers, or is interrupted so often, and then ends.
#[derive(Drop)]
struct Lasting {
    left: usize,
    is_interrupted: bool,
}

impl io::Read for Lasting {
    fn read(&mut self, buffer: &mut [u8]) -> io::Result<usize> {
        if self.left == 0 {
            return Ok(0);
        }
        self.left -= 1;
        if self.is_interrupted {
            return Err(io::Error::from(ErrorKind::Interrupted));
        }
        Ok(buffer.len())
    }
}

#[test]
fn a_reader_that_never_ends_is_given_up(rt: HostRuntime) {
    for (left, is_interrupted, want) in [
        (2048, false, Ok(16777216)),
        (2049, false, Err(StoreError::Failed)),
        (usize::MAX, false, Err(StoreError::Failed)),
        (16777216, true, Ok(0)),
        (16777217, true, Err(StoreError::Failed)),
    ] {
        let mut reader = Lasting {
            left,
            is_interrupted,
        };
        match read_all(rt.alloc(), &mut reader) {
            Ok(bytes) => assert_eq!(rt; Ok(bytes.len()), want),
            Err(error) => assert_eq!(rt; Err(error), want),
        }
    }
}

// A writer that takes as many bytes at each write as a digit of a script says, with its errors
// among them, and then is interrupted for ever.
#[derive(Drop)]
struct Trickle<'a> {
    taken: Vec<u8>,
    steps: &'a [u8],
}

impl io::Write for Trickle<'_> {
    fn write(&mut self, bytes: &[u8]) -> io::Result<usize> {
        let Some((step, rest)) = self.steps.split_first() else {
            return Err(io::Error::from(ErrorKind::Interrupted));
        };
        self.steps = rest;
        let count = bytes.len().min(usize::from(outcome(*step)? % 16));
        self.taken.extend_from_slice(&bytes[..count])?;
        Ok(count)
    }

    fn flush(&mut self) -> io::Result<()> {
        Ok(())
    }
}

#[test]
fn a_short_write_goes_on_with_the_rest(rt: HostRuntime) {
    for (steps, want, taken) in [
        ("111", Ok(()), "abc"),
        ("I1I9", Ok(()), "abc"),
        ("201", Err(StoreError::Failed), "ab"),
        ("1F2", Err(StoreError::Failed), "a"),
        ("M3", Err(StoreError::NoMemory), ""),
        ("2", Err(StoreError::Failed), "ab"),
    ] {
        let mut writer = Trickle {
            taken: Vec::new(rt.alloc()),
            steps: steps.as_bytes(),
        };
        assert_eq!(rt; write_all(&mut writer, b"abc").map_err(cause_of), want);
        assert_eq!(rt; writer.taken.as_slice(), taken.as_bytes());
    }
}

#[test]
fn an_out_sink_prints(rt: HostRuntime) {
    let mut sink = OutSink::new(&rt);
    assert_eq!(rt; sink.put(b"printed\n"), Ok(()));
    assert_eq!(rt; sink.put(b""), Ok(()));
}

#[test]
fn numbers_are_held_and_written(rt: HostRuntime) -> Result<(), Fail> {
    let mut values = Values::new(rt.alloc());
    let mut text = Vec::new(rt.alloc());
    for (number, held, nearest) in [
        (0, true, 0),
        (-999, true, -999),
        (999, true, 999),
        (-1000, false, -999),
        (i64::MIN, false, -999),
        (i64::MAX, false, 999),
    ] {
        assert_eq!(rt; Value::new(number).is_some(), held);
        assert_eq!(rt; Value::clamp(number).get(), nearest);
        values.push(Value::clamp(number))?;
        push_number(&mut text, number)?;
        push_number(&mut text, nearest)?;
    }
    assert_eq!(rt; values.len(), 6);
    assert_eq!(rt; values.at(5).get(), 999);
    let want = b"00-999-999999999-1000-999-9223372036854775808-9999223372036854775807999";
    assert_eq!(rt; text.as_slice(), want.as_slice());
    Ok(())
}

#[test]
fn sums_and_differences_are_held(rt: HostRuntime) {
    for (left, right, sum, difference) in [
        (3, 4, 7, -1),
        (999, 1, 999, 998),
        (-999, 1, -998, -999),
        (500, 600, 999, -100),
        (-500, 600, 100, -999),
        (0, -999, -999, 999),
        (-999, -999, -999, 0),
    ] {
        let left = Value::clamp(left);
        let right = Value::clamp(right);
        assert_eq!(rt; left.add(right).get(), sum);
        assert_eq!(rt; left.sub(right).get(), difference);
        assert_eq!(rt; left.sub(right).neg(), right.sub(left));
    }
}

#[test]
fn spare_places_are_used_up_one_by_one(rt: HostRuntime) -> Result<(), Fail> {
    let mut values = Values::new(rt.alloc());
    assert_eq!(rt; values.spare(), 0);
    values.push(Value::clamp(7))?;
    values.reserve(3)?;
    let spare = values.spare();
    assert!(rt; 3 <= spare);
    for number in [8, 9, 10] {
        assert!(rt; 0 < values.spare());
        values.push_spared(Value::clamp(number));
    }
    assert_eq!(rt; values.spare(), spare - 3);
    assert!(rt; 2 <= values.len());
    values.cut(2);
    assert_eq!(rt; values.spare(), spare - 1);
    assert_eq!(rt; values.len(), 2);
    assert_eq!(rt; values.at(1).get(), 8);
    Ok(())
}

#[test]
fn lines_are_cut_at_each_lf(rt: HostRuntime) -> Result<(), Fail> {
    for (text, want) in [
        ("", ""),
        ("\n", "[]"),
        ("a", "[a]"),
        ("a\n", "[a]"),
        ("a\n\nbc\n", "[a][][bc]"),
        ("a\r\nb", "[a][b]"),
        ("a\n\r", "[a][]"),
        ("\r", "[]"),
        ("\r\r\n", "[\r]"),
        ("a\rb\r\n", "[a\rb]"),
    ] {
        let mut found = Vec::new(rt.alloc());
        for line in lines(text.as_bytes()) {
            found.push(b'[')?;
            found.extend_from_slice(line)?;
            found.push(b']')?;
        }
        assert_eq!(rt; found.as_slice(), want.as_bytes());
    }
    Ok(())
}

#[test]
fn tiles_stand_four_in_a_row(rt: HostRuntime) -> Result<(), Fail> {
    let mut kinds = [TileKind::Compute; 12];
    kinds[3] = TileKind::Memory;
    kinds[7] = TileKind::Damaged;
    let shape = Shape {
        columns: 4,
        rows: 3,
    };
    assert!(rt; Tiles::new(shape, &kinds[1..]).is_none());
    let tiles = Tiles::new(shape, &kinds).ok_or("no tiles")?;
    assert_eq!(rt; tiles.compute_count(), 10);
    assert_eq!(rt; tiles.shape(), shape);
    for (tile, dir, next) in [
        (0, Dir::Left, None),
        (0, Dir::Up, None),
        (0, Dir::Right, Some(1)),
        (0, Dir::Down, Some(4)),
        (3, Dir::Right, None),
        (4, Dir::Left, None),
        (11, Dir::Right, None),
        (11, Dir::Down, None),
        (11, Dir::Left, Some(10)),
        (11, Dir::Up, Some(7)),
    ] {
        assert!(rt; tile < 12);
        let tile = Tile { number: tile };
        assert_eq!(rt;
            tiles.neighbour(tile, dir),
            next.map(|number| Tile { number })
        );
    }
    Ok(())
}
