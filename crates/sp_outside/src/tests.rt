use super::{Failed, Library, LoadFault, MemoryLibrary, MemorySink, Sink};
use std::test::Fail;

#[test]
fn a_library_answers_each_load(rt: HostRuntime) -> Result<(), Fail> {
    let alloc = rt.alloc();
    let mut files = Vec::new(alloc);
    files.push((String::from_str(alloc, "one")?, b"text".to_vec(alloc)?))?;
    let mut library = MemoryLibrary::new(files, vec![in alloc; 1]?);
    let rows: [(&str, u64, Result<(), LoadFault>, &[u8]); 4] = [
        ("one", 4, Ok(()), b"text"),
        ("one", 4, Err(LoadFault::Failed), b""),
        ("one", 3, Err(LoadFault::TooLong), b""),
        ("two", 4, Err(LoadFault::Missing), b""),
    ];
    for (name, limit, answer, bytes) in rows {
        let mut into = Vec::new(alloc);
        assert_eq!(rt; library.load(name, limit, &mut into), answer);
        assert_eq!(rt; into.as_slice(), bytes);
    }
    Ok(())
}

#[test]
fn a_sink_takes_what_fits(rt: HostRuntime) -> Result<(), Fail> {
    let mut sink = MemorySink::with_capacity(rt.alloc(), 5)?;
    assert_eq!(rt; sink.put(b"abc"), Ok(()));
    assert_eq!(rt; sink.put(b"def"), Err(Failed));
    assert_eq!(rt; sink.bytes(), b"abcde".as_slice());
    Ok(())
}
