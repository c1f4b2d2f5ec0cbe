//! A law on added latencies, which has no code.
ghost use Rattle.plan_report.specs.Added.{OneAdded};

/// The latencies that are added to the streams by a plan are, balanced, those of its borders with the balance that its lines show.
pub fn law_one_added()
    ensures { OneAdded }
{}
