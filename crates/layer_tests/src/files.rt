// Tests of files on the system, read whole, by turns, or refused past a limit, and of bytes written to standard output.
use std::fs;
use std::test::Fail;
use tapa_files::{DirShelf, StdSink, TakeFault, put_all, take_file};

#[test]
fn real_files_are_read(rt: HostRuntime) -> Result<(), Fail> {
    let alloc = rt.alloc();
    let mut long = Vec::new(alloc);
    for n in 0..50_000u32 {
        long.extend_from_slice(&n.to_le_bytes())?;
    }
    fs::write(&rt, "long.txt", long.as_slice())?;
    fs::write(&rt, "tea.txt", "tea and milk")?;
    let mut shelf = DirShelf::new(&rt, alloc);
    for limit in [200_000, 200_001] {
        let taken = take_file(alloc, &mut shelf, "long.txt", limit)?;
        assert!(rt; taken.as_slice() == long.as_slice());
        let taken = take_file(alloc, &mut shelf, "tea.txt", 100)?;
        assert_eq!(rt; taken.as_slice(), b"tea and milk".as_slice());
    }
    let refused = take_file(alloc, &mut shelf, "long.txt", 199_999);
    assert!(rt; matches!(refused, Err(TakeFault::TooLong { limit: 199_999 })));
    let missing = take_file(alloc, &mut shelf, "egg.txt", 100);
    assert!(rt; matches!(missing, Err(TakeFault::ReadFault)));
    fs::remove_file(&rt, "long.txt")?;
    fs::remove_file(&rt, "tea.txt")?;
    Ok(())
}

#[test]
fn a_writer_is_written_to(rt: HostRuntime) -> Result<(), Fail> {
    let mut sink = StdSink::new(rt.stdout());
    assert!(rt; put_all(&mut sink, b"tea").is_ok());
    Ok(())
}
