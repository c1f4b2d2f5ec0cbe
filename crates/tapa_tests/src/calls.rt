// Calls of single crates, on what was worked out by hand: registers between tasks with the flow that shows them to be fewest, the room
// of a channel, values in a dump, and a text of Verilog that was read.
ghost use Rattle.std.specs.Prelude.{◌≡◌, ◌≤◌, ◌<◌, ◌^◌, ℕ, length, slice_index};
ghost use Rattle.std.specs.Bool.{OnTrue};
ghost use Rattle.latency_balance.specs.Moves.{AreLatencies};
ghost use Rattle.flow_cert.specs.Verdicts.{AreLists};

use cross_pipe::fifo_size;
use flow_cert::{Verdict, check};
use latency_balance::balance_streams;
use layer_tests::short;
use std::alloc::Global;
use std::test::Fail;
use std::vec::Vec;
use tapa_base::OutOfMemory;
use tapa_drive::read_program;
use tapa_files::MemSink;
use task_graph::Graph;
use vcd_text::read_vcd;
use verilog_text::print;
use vlog_read::read;

// A task that writes to another and, by a longer way, to it again.
const TRIANGLE: &str = "void A(tapa::ostream<int>& ab, tapa::ostream<int>& ad) { ab << 1; ad << 2; }
void B(tapa::istream<int>& ab, tapa::ostream<uint8_t>& bd) { bd << ab.read(); }
void D(tapa::istream<uint8_t>& bd, tapa::istream<int>& ad) { bd.read(); ad.read(); }
void T() { tapa::stream<int> ab; tapa::stream<uint8_t> bd; tapa::stream<int> ad;
  tapa::task().invoke(A, ab, ad).invoke(B, ab, bd).invoke(D, bd, ad); }
";

// Whether these are latencies of a graph's streams: one each, at most 160, and none within a group.
fn are_latencies(graph: &Graph, lat: &[u32]) -> bool
    ensures { OnTrue result (AreLatencies graph.now lat.now) }
{
    if lat.len() != graph.streams() {
        return false;
    }
    for e in 0..lat.len() {
        if lat[e] > 160 || (graph.tail(e) == graph.head(e) && lat[e] != 0) {
            return false;
        }
    }
    true
}

// Whether these can be checked: latencies, a number for each group, and a flow of less than 2 to the 32nd for each stream.
fn are_lists(graph: &Graph, lat: &[u32], s: &[u32], flow: &[u64]) -> bool
    ensures { OnTrue result (AreLists graph.now lat.now s.now flow.now) }
{
    if !are_latencies(graph, lat)
        || s.len() != graph.groups as usize
        || flow.len() != graph.streams()
    {
        return false;
    }
    for e in 0..flow.len() {
        if flow[e] >= 4_294_967_296 {
            return false;
        }
    }
    true
}

// What a check of these finds, if they can be checked.
fn verdict(graph: &Graph, lat: &[u32], s: &[u32], flow: &[u64]) -> Option<Verdict> {
    if are_lists(graph, lat, s, flow) {
        Some(check(graph, lat, s, flow))
    } else {
        None
    }
}

// The graph of the triangle.
fn triangle(alloc: Global) -> Result<Graph, Fail> {
    Ok(Graph::of(alloc, &read_program(alloc, short(TRIANGLE), "T")?)?)
}

// The balance of the triangle whose short way has two registers, with the flow that shows it.
#[test]
fn the_longer_way_gets_the_registers(rt: HostRuntime) -> Result<(), Fail> {
    let alloc = rt.alloc();
    let graph = triangle(alloc)?;
    let lat = [0, 0, 2];
    if !are_latencies(&graph, &lat) {
        return Err(OutOfMemory.into());
    }
    let found = balance_streams(alloc, &graph, &lat)?;
    assert_eq!(rt; found.bal.as_slice(), [0, 2, 0].as_slice());
    assert_eq!(rt; found.flow.as_slice(), [24, 0, 42].as_slice());
    assert!(rt; verdict(&graph, &lat, &found.s, &found.flow) == Some(Verdict::Yes));
    Ok(())
}

// All four verdicts on numbers and flows of the triangle.
#[test]
fn each_verdict_is_found(rt: HostRuntime) -> Result<(), Fail> {
    let graph = triangle(rt.alloc())?;
    let value = Verdict::BadValue {
        primal: 66,
        dual: 18,
    };
    for (s, flow, wanted) in [
        ([0, 0, 2], [24, 0, 42], Verdict::Yes),
        ([0, 0, 1], [24, 0, 42], Verdict::BadStream(2)),
        ([0, 0, 2], [24, 0, 41], Verdict::BadTask(0)),
        ([0, 2, 2], [24, 0, 42], value),
    ] {
        assert!(rt; verdict(&graph, &[0, 0, 2], &s, &flow) == Some(wanted));
    }
    Ok(())
}

// A FIFO has its depth, and two entries for each cycle of added latency.
#[test]
fn a_fifo_has_room_for_what_is_on_its_way(rt: HostRuntime) -> Result<(), Fail> {
    assert_eq!(rt; fifo_size(1, 2), 5);
    assert_eq!(rt; fifo_size(4096, 0), 4096);
    Ok(())
}

const DUMP: &[u8] = b"$timescale 1 ns $end
$scope module t_X $end
$var wire 1 ! rst $end
$var wire 8 \" r $end
$upscope $end
$enddefinitions $end
#0
1!
b101 \"
#1
0!
#2
b11111111 \"
";

// The value of a net in each cycle: the last one that was written up to it.
#[test]
fn a_net_keeps_its_value_until_it_changes(rt: HostRuntime) -> Result<(), Fail> {
    let Ok(dump) = read_vcd(rt.alloc(), DUMP) else {
        return Err(OutOfMemory.into());
    };
    assert_eq!(rt; (dump.last, dump.nets.len()), (2, 2));
    if dump.nets.len() == 2 && dump.last == 2 {
        assert_eq!(rt; (dump.value_at(0, 0), dump.value_at(0, 2)), (1, 0));
        let wide = (
            dump.value_at(1, 0),
            dump.value_at(1, 1),
            dump.value_at(1, 2),
        );
        assert_eq!(rt; wide, (5, 5, 255));
    }
    Ok(())
}

const LINES: &[u8] = b"module t_X ( input clk , input rst , output done ) ;
assign done = 1'd1 ;
endmodule
";

// A design that was read is printed with two spaces before each line of a module's inside.
#[test]
fn a_text_that_was_read_is_printed_in_its_one_spelling(rt: HostRuntime) -> Result<(), Fail> {
    let alloc = rt.alloc();
    let Ok(design) = read(alloc, LINES) else {
        return Err(OutOfMemory.into());
    };
    let mut out = MemSink::new(alloc, 4096, Vec::new(alloc))?;
    assert!(rt; print(alloc, &design, &mut out).is_ok());
    assert_eq!(rt;
        out.bytes(),
        b"module t_X ( input clk , input rst , output done ) ;
  assign done = 1'd1 ;
endmodule
"
            .as_slice()
    );
    Ok(())
}
