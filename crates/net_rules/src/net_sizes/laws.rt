//! What holds of the words at ports. The function's contract is a law; it computes nothing.

ghost use Rattle.net_rules.specs.NetSizes.Staying.{PortsHaveSizes};

/// What stands at the ports of single bits is 0 or 1.
pub fn ports_have_sizes()
    ensures { PortsHaveSizes }
{}
