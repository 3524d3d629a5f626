//! Counts of faults.
ghost use Rattle.std.specs.Prelude.{◌≡◌, ◌≤◌};
ghost use Rattle.jfr_outside.specs.Counts.{Rose};
ghost use Rattle.jfr_outside.specs.declared.fault.Fault.TheVariants.{Failed};

use jfr_outside::Fault;

/// Raises a count of faults, which saturates, and returns the fault that was counted.
pub fn failed(count: &mut u64) -> Fault
    ensures fault { result ≡ Failed }
    ensures kept { count.old ≤ count.new }
    ensures rose { Rose count.old count.new }
{
    *count = count.saturating_add(1);
    Fault::Failed
}
