// The report of a run, compared with the streams and traces that the slow functions compute, and single traces.
use coro_threads::{Crew, OpenGate};
use kahn_model::tick::{Tick, TraceEnd};
use kahn_reference::rounds::streams;
use kahn_reference::slow::{Variables, trace};
use layer_tests::short;
use run_data::{Last, report_last, report_stream};
use run_program::{RunEnd, run_program};
use std::alloc::{AllocError, Global};
use std::sync::Wait;
use std::test::Fail;
use std::thread::Threads;
use tapa_base::Token;
use tapa_drive::{read_input, read_program};
use tapa_files::MemSink;
use tapa_syntax::{Bound, Instance, Leaf, Program};

// More rounds than any of these programs needs.
const ROUNDS: u64 = 24;

// The variables of an instance before its first tick: zeros, and the numbers that its scalar parameters are given.
fn first_state(alloc: Global, leaf: &Leaf, instance: &Instance) -> Result<Variables, AllocError> {
    let mut vars = vec![in alloc; 0; leaf.vars.len()]?;
    for (x, bound) in leaf.scalars.iter().zip(&instance.scalars) {
        if let (Bound::Number(number), Some(var)) = (bound, vars.get_mut(*x as usize)) {
            *var = *number;
        }
    }
    let mut arrays = Vec::new(alloc);
    for array in &leaf.arrays {
        arrays.push(vec![in alloc; 0; array.cells as usize]?)?;
    }
    Ok(Variables {
        vars,
        arrays,
        cells: Vec::new(alloc),
    })
}

// The ticks of an instance on these tokens, and why they end.
fn trace_of(
    alloc: Global,
    program: &Program,
    instance: &Instance,
    tests: u64,
    lists: &[Vec<Token>],
) -> Result<(Vec<Tick>, TraceEnd), Fail> {
    let Some(leaf) = program.bodies.get(instance.body as usize) else {
        return Err(Fail::new("no body"));
    };
    let state = first_state(alloc, leaf, instance)?;
    Ok(trace(alloc, leaf, &instance.streams, state, tests, lists)?)
}

// The report after the last round, by the slow functions alone.
fn slow_report(alloc: Global, program: &Program) -> Result<MemSink, Fail> {
    let lists = streams(alloc, program, &[], &[], ROUNDS)?;
    let mut out = MemSink::new(alloc, 4096, Vec::new(alloc))?;
    for (stream, tokens) in program.streams.iter().zip(&lists) {
        report_stream(alloc, stream.label.bytes(), tokens, &mut out)?;
    }
    let mut total: u64 = 0;
    for instance in &program.instances {
        if !instance.detached {
            let (ticks, _) = trace_of(alloc, program, instance, ROUNDS, &lists)?;
            total = total.saturating_add(ticks.len() as u64);
        }
    }
    report_last(alloc, Last::Done(total), &mut out)?;
    Ok(out)
}

// Whether the report shows the same as the slow one: of a run that stopped, each of its streams a prefix.
fn agrees(ended: bool, report: &[u8], slow: &[u8], streams: usize) -> bool {
    if ended {
        return report == slow;
    }
    let whole = slow.split(|byte| *byte == b'\n');
    let carried = report.split(|byte| *byte == b'\n');
    for (prefix, all) in carried.zip(whole).take(streams) {
        if !all.starts_with(prefix) {
            return false;
        }
    }
    true
}

/// Returns the report of a program, and whether the slow functions agree.
pub(crate) fn run_beside<R: Threads + Wait + Sync>(
    rt: &R,
    alloc: Global,
    text: &str,
) -> Result<String, Fail> {
    let program = read_program(alloc, short(text), "T")?;
    let slow = slow_report(alloc, &program)?;
    let streams = program.streams.len();
    let Ok(input) = read_input(alloc, &program, b"{}") else {
        return Err(Fail::new("no input"));
    };
    let crew = Crew {
        rt,
        gate: &OpenGate,
        workers: 3,
    };
    let mut out = MemSink::new(alloc, 4096, Vec::new(alloc))?;
    let end = run_program(&crew, alloc, program, input, 100_000, &mut out)?;
    let ended = matches!(end, RunEnd::Done);
    let mut shown = String::new(alloc);
    for byte in out.bytes() {
        shown.push(char::from(*byte))?;
    }
    shown.push_str(if agrees(ended, out.bytes(), slow.bytes(), streams) {
        "as by the rounds\n"
    } else {
        "otherwise by the rounds\n"
    })?;
    Ok(shown)
}

/// Returns the ticks of one instance on given tokens, and why they end.
pub(crate) fn trace_text(alloc: Global, text: &str, words: &str) -> Result<String, Fail> {
    let mut numbers = Vec::new(alloc);
    let mut lists = Vec::new(alloc);
    for word in words.split_whitespace() {
        if word == "/" {
            lists.push(Vec::new(alloc))?;
        } else if lists.is_empty() {
            numbers.push(word.parse::<u32>()?)?;
        } else if let Some(list) = lists.last_mut() {
            list.push(match word.parse::<u64>() {
                Ok(n) => Token::Datum(n),
                Err(_) => Token::Eot,
            })?;
        }
    }
    let program = read_program(alloc, short(text), "T")?;
    let (Some(number), Some(tests)) = (numbers.get(0), numbers.get(1)) else {
        return Err(Fail::new("no numbers"));
    };
    let Some(instance) = program.instances.get(*number as usize) else {
        return Err(Fail::new("no instance"));
    };
    let (ticks, end) = trace_of(alloc, &program, instance, u64::from(*tests), &lists)?;
    let mut shown = format!(in alloc; "{} ticks, {end:?}:", ticks.len())?;
    for tick in &ticks {
        shown.push_str(format!(in alloc; " {tick:?}")?.as_str())?;
    }
    shown.push('\n')?;
    Ok(shown)
}
