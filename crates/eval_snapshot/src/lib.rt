//! Where a runner of a query stands, and a runner that stands so.
#![tactic(auto)]
