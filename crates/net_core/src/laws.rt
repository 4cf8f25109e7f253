//! What holds of the table of ports.

ghost use Rattle.net_core.specs.PortNames.{ArePlaced};

/// At each place that has a name stands the port of that name.
pub fn ports_are_placed()
    ensures { ArePlaced }
{}
