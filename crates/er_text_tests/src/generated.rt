//! The generator gives the records of the worked texts, and the due number of records.

use er_gen::Generator;
use er_gen::rows::{one_round, two_rounds};
use er_io::put_all;
use er_io_system::MemorySink;
use er_syntax::print::print_record;
use std::alloc::Global;
use std::test::Fail;

/// Writes the records that are left, each with its LF, and answers how many they were.
fn put_records(generator: &mut Generator, sink: &mut MemorySink) -> Result<u32, Fail> {
    for count in 0..u32::MAX {
        let Some(next) = generator.next().map_err(|_| "memory")? else {
            return Ok(count);
        };
        print_record(&next, sink).map_err(|_| "printed")?;
        put_all(sink, b"\n").map_err(|_| "put")?;
    }
    Err("no end".into())
}

/// The text of a generated trace.
fn text_of(alloc: Global, number: u32) -> Result<MemorySink, Fail> {
    if !Generator::has_trace(number) {
        return Err("no trace".into());
    }
    let mut generator = Generator::new(alloc, number);
    let mut sink = MemorySink::new(alloc, 1_000, 1_000, Vec::new(alloc)).map_err(|_| "memory")?;
    put_all(&mut sink, b"webtrace 1\n").map_err(|_| "put")?;
    put_records(&mut generator, &mut sink)?;
    put_all(&mut sink, b"end\n").map_err(|_| "put")?;
    Ok(sink)
}

#[test]
fn texts(rt: HostRuntime) -> Result<(), Fail> {
    let one = text_of(rt.alloc(), 1)?;
    assert_eq!(rt; one.bytes(), one_round().as_bytes());
    let two = text_of(rt.alloc(), 2)?;
    assert_eq!(rt; two.bytes(), two_rounds().as_bytes());
    Ok(())
}

#[test]
fn the_most_rounds(rt: HostRuntime) -> Result<(), Fail> {
    assert!(rt; !Generator::has_trace(0) && !Generator::has_trace(1_501));
    if !Generator::has_trace(1_500) {
        return Err("no trace".into());
    }
    let mut generator = Generator::new(rt.alloc(), 1_500);
    for _ in 0..18_010 {
        let next = generator.next().map_err(|_| "memory")?;
        assert!(rt; next.is_some());
    }
    for _ in 0..2 {
        let next = generator.next().map_err(|_| "memory")?;
        assert!(rt; next.is_none());
    }
    Ok(())
}
