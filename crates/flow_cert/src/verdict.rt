/// What a check finds: the first stream that has not its latency, or that is inside a group and has flow; the first group that
/// the flow brings more or less than the widths do; the registers and the flow's value, where they differ; or none of these.
#[derive(Clone, Copy, Debug, PartialEq, Eq)]
pub enum Verdict {
    BadStream(u32),
    BadTask(u32),
    BadValue { primal: u64, dual: i64 },
    Yes,
}
