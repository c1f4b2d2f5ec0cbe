/// What the words ask for.
#[derive(Clone, Copy)]
pub enum Command<'a> {
    /// Run the task `top` of the file `source` by 1 to 64 `workers`, for at most `limit` ticks, with the file `data` where one is
    /// named.
    Run {
        source: &'a str,
        top: &'a str,
        data: Option<&'a str>,
        workers: u32,
        limit: u64,
    },
    /// Build the circuit of the task `top` of the file `source`.
    Build {
        source: &'a str,
        top: &'a str,
    },
    /// Plan the task `top` of the file `source` on the device of the file `device`, and do this with the plan.
    Plan {
        source: &'a str,
        top: &'a str,
        device: &'a str,
        mode: PlanMode,
        aim: PlanAim,
    },
    /// Simulate the design of the Verilog text in the file `text`, for at most `limit` cycles, with the file `data` where one
    /// is named, and show this of it.
    Cosim {
        text: &'a str,
        data: Option<&'a str>,
        limit: u64,
        aim: CosimAim,
    },
    /// Show the values of the net `net` in the value change dump of the file `file`.
    Vcd {
        file: &'a str,
        net: &'a str,
    },
    /// Generate the network of 0 to 126 `layers`, run it by 1 to 64 `workers`, build and simulate it.
    Gen {
        layers: u32,
        workers: u32,
    },
}

/// How a plan is looked for: one of least cost, the first that fits, or one by halving the device level by level.
#[derive(Clone, Copy)]
pub enum PlanMode {
    Exact,
    Fit,
    Split,
}

/// The purpose of a plan: to print its lines, or to build a circuit by it. In the circuit a stream has latency if it crosses borders of slots. In a balanced
/// plan streams get more latency, so that all paths between two tasks have equal latency.
#[derive(Clone, Copy)]
pub enum PlanAim {
    Lines,
    Circuit { balanced: bool },
}

/// What a simulation shows: the report of its streams and memories, or the value change dump of the top module's nets.
#[derive(Clone, Copy)]
pub enum CosimAim {
    Report,
    Dump,
}

/// Why words are not read.
#[derive(Clone, Copy)]
pub enum WordsFault {
    /// They break a rule: they are no command.
    Usage,
    OutOfMemory,
}
