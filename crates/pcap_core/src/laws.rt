//! The law of captures, as the contract of a call that does nothing.

ghost use Rattle.pcap_core.specs.Laws.{IsOneReading};

/// Each list of bytes is read in one way, which is the format's.
pub fn one_reading()
    ensures { IsOneReading }
{}
