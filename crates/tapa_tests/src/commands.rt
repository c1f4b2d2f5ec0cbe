// Tests of the top call: where a file, standard output or standard error fails, the status and what was written before; and runs by two
// workers, which make ticks of two instances at once, and of which one that is held up does not hold up the other.
use crate::programs::{Asked, asking, building, reading, refused};
use layer_tests::{APART, Awaiting, SHIFTS};
use std::alloc::Global;
use std::sync::Wait;
use std::sync::atomic::Ordering;
use std::test::Fail;
use std::thread::Threads;
use tapa_drive::{Gate, OpenGate, Status, WordsFault, refuse_words, tapa};
use tapa_files::{MemShelf, MemSink};

// No call has this number.
const NEVER: u64 = u64::MAX;

const CANNOT_WRITE: &[u8] = b"tapa: cannot write\n";

// What a command answers, and what it wrote.
#[derive(Drop)]
struct Answer {
    status: Status,
    out: MemSink,
    err: MemSink,
}

// A command whose output has room for so many bytes, and by whose gate the workers pass. The shelf fails at the call of the first number,
// the output at that of the second, and standard error at that of the third.
fn answered<R: Threads + Wait + Sync, G: Gate>(
    rt: &R,
    alloc: Global,
    asked: &Asked,
    room: usize,
    fails: [u64; 3],
    gate: &G,
) -> Result<Answer, Fail> {
    let mut files = Vec::new(alloc);
    for (name, text) in [("r.cpp", asked.source), ("d.json", asked.given)] {
        files.push((
            String::from_str(alloc, name)?,
            Vec::from_slice(alloc, text.as_bytes())?,
        ))?;
    }
    let mut words = Vec::new(alloc);
    for word in asked.words {
        words.push(String::from_str(alloc, word)?)?;
    }
    let mut shelf = MemShelf::new(alloc, files, vec![in alloc; fails[0]; 1]?);
    let mut out = MemSink::new(alloc, room, vec![in alloc; fails[1]; 1]?)?;
    let mut err = MemSink::new(alloc, 4096, vec![in alloc; fails[2]; 1]?)?;
    let status = tapa(rt, alloc, &words, &mut shelf, &mut out, &mut err, gate);
    Ok(Answer { status, out, err })
}

// A command with ample room and an open gate.
fn said<R: Threads + Wait + Sync>(
    rt: &R,
    alloc: Global,
    asked: &Asked,
    fails: [u64; 3],
) -> Result<Answer, Fail> {
    answered(rt, alloc, asked, 262_144, fails, &OpenGate)
}

// How many line feeds a text has.
fn lines(text: &[u8]) -> u64 {
    let mut count: u64 = 0;
    for byte in text {
        if *byte == b'\n' {
            count = count.saturating_add(1);
        }
    }
    count
}

// Whether these are the first lines of a text.
fn are_first_lines(part: &[u8], count: u64, whole: &[u8]) -> bool {
    whole.starts_with(part) && lines(part) == count && (count == 0 || part.ends_with(b"\n"))
}

// The output failing at each of its first calls: it holds the lines before, of a report, a plan, a circuit's text and that of a simulation.
#[test]
fn outputs_are_cut_at_lines(rt: HostRuntime) -> Result<(), Fail> {
    let alloc = rt.alloc();
    for asked in &reading() {
        let whole = said(&rt, alloc, asked, [NEVER; 3])?;
        assert!(rt; whole.status == Status::Ok && whole.err.bytes().is_empty());
        for call in 0..8u64 {
            let cut = said(&rt, alloc, asked, [NEVER, call, NEVER])?;
            if call < lines(whole.out.bytes()) {
                assert_eq!(rt;
                    (cut.status, cut.err.bytes()),
                    (Status::Write, CANNOT_WRITE)
                );
                assert!(rt; are_first_lines(cut.out.bytes(), call, whole.out.bytes()));
            } else {
                assert_eq!(rt; cut.status, Status::Ok);
                assert_eq!(rt; cut.out.bytes(), whole.out.bytes());
            }
        }
    }
    Ok(())
}

// Standard error failing at each of its lines: it holds the lines before, and the output what it has without the failure.
#[test]
fn messages_are_cut_at_lines(rt: HostRuntime) -> Result<(), Fail> {
    let alloc = rt.alloc();
    for asked in &refused() {
        let whole = said(&rt, alloc, asked, [NEVER; 3])?;
        let count = lines(whole.err.bytes());
        assert!(rt; count > 0);
        for call in 0..count {
            let cut = said(&rt, alloc, asked, [NEVER, NEVER, call])?;
            assert_eq!(rt;
                (cut.status, cut.out.bytes()),
                (Status::Write, whole.out.bytes())
            );
            assert!(rt; are_first_lines(cut.err.bytes(), call, whole.err.bytes()));
        }
    }
    Ok(())
}

// The shelf failing at each of its calls: the file that is read then is reported, the output is empty, and each file that the words
// name is reported by some call, the source first.
#[test]
fn unread_files_are_reported(rt: HostRuntime) -> Result<(), Fail> {
    let alloc = rt.alloc();
    for asked in &reading() {
        let mut reported = 0;
        for call in 0..8u64 {
            let failed = said(&rt, alloc, asked, [call, NEVER, NEVER])?;
            if failed.status == Status::Read {
                let last = failed.err.bytes() == b"tapa: cannot read d.json\n".as_slice();
                assert!(rt; last || failed.err.bytes() == b"tapa: cannot read r.cpp\n".as_slice());
                assert!(rt; failed.out.bytes().is_empty());
                assert!(rt; last || reported < 2);
                reported = if last { 2 } else { 1 };
            } else {
                assert!(rt; failed.status == Status::Ok && failed.err.bytes().is_empty());
            }
        }
        assert_eq!(rt; reported, if asked.given.is_empty() { 1 } else { 2 });
    }
    Ok(())
}

// An output with room for ten bytes, less than the first line of a text: nothing is written there.
#[test]
fn an_output_that_is_full_stays_empty(rt: HostRuntime) -> Result<(), Fail> {
    let full = answered(&rt, rt.alloc(), &building(), 10, [NEVER; 3], &OpenGate)?;
    assert_eq!(rt;
        (full.status, full.err.bytes()),
        (Status::Write, CANNOT_WRITE)
    );
    assert!(rt; full.out.bytes().is_empty());
    Ok(())
}

// Words that could not be read are reported.
#[test]
fn unread_words_are_reported(rt: HostRuntime) -> Result<(), Fail> {
    let alloc = rt.alloc();
    let mut err = MemSink::new(alloc, 100, Vec::new(alloc))?;
    assert_eq!(rt;
        refuse_words(WordsFault::OutOfMemory, &mut err),
        Status::Memory
    );
    assert_eq!(rt; err.bytes(), b"tapa: out of memory\n".as_slice());
    Ok(())
}

// A run by two workers, each of whom passes a gate that waits for these calls, and how many were seen there.
fn by_two<R: Threads + Wait + Sync>(
    rt: &R,
    alloc: Global,
    source: &'static str,
    calls: (u64, u64),
) -> Result<(Answer, u64), Fail> {
    let run = asking(&["run", "r.cpp", "T", "--workers", "2"], source, "");
    let gate = Awaiting::new(calls.0, calls.1);
    let ran = answered(rt, alloc, &run, 4096, [NEVER; 3], &gate)?;
    Ok((ran, gate.seen.load(Ordering::SeqCst)))
}

// With two workers two instances that may both begin are under way at once.
#[test]
fn two_workers_meet(rt: HostRuntime) -> Result<(), Fail> {
    let (ran, seen) = by_two(&rt, rt.alloc(), SHIFTS, (1, 1))?;
    assert!(rt; matches!(ran.status, Status::Ok));
    assert_eq!(rt;
        ran.out.bytes(),
        b"stream a: 1099511627776 0 0 4294967296\ndone 20\n".as_slice()
    );
    assert!(rt; ran.err.bytes().is_empty());
    assert_eq!(rt; seen, 2);
    Ok(())
}

// While one worker is held up with one instance the other goes on with the others.
#[test]
fn the_others_go_on(rt: HostRuntime) -> Result<(), Fail> {
    let (ran, seen) = by_two(&rt, rt.alloc(), APART, (2, 0))?;
    assert!(rt; matches!(ran.status, Status::Ok));
    assert_eq!(rt; ran.out.bytes(), b"stream q: 1 2 3\ndone 10\n".as_slice());
    assert!(rt; ran.err.bytes().is_empty());
    assert_eq!(rt; seen, 2);
    Ok(())
}
