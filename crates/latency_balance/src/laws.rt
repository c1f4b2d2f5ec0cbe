//! A law on balances, which has no code.
ghost use Rattle.latency_balance.specs.Result.{BalancesAreOne};

/// A graph has at most one balance for the latencies of its streams. Of those that take the fewest registers it is the one in which each
/// group is as early as it can be.
pub fn law_balances_are_one()
    ensures { BalancesAreOne }
{}
