//! What holds of all tables that a load leaves, through commits and the host's writes. Each function's contract is a law; it computes
//! nothing.

ghost use Rattle.hazard_core.specs.TableLaws.Bytes.{LoadsBytes, CommitKeepsBytes, HostKeepsBytes};
ghost use Rattle.hazard_core.specs.TableLaws.Counts.{CommitKeepsSlots, HostKeepsSlots};
ghost use Rattle.hazard_core.specs.TableLaws.Leading.{BeginsLead, RowsLead, ChangesLead, WritesLead};

/// The tables that a load leaves hold bytes of the declared lengths, in unused slots too.
pub fn loads_bytes()
    ensures { LoadsBytes }
{
    xdp_maps::laws::index_laws();
    xdp_maps::laws::pair_laws();
    crate::laws::loads_tables();
}

/// Tables that hold bytes do so after a commit, whatever the packet holds, and after the host has written.
pub fn keep_bytes()
    ensures commit { CommitKeepsBytes }
    ensures host { HostKeepsBytes }
{}

/// Neither a commit nor the host adds or removes a slot.
pub fn keep_slots()
    ensures commit { CommitKeepsSlots }
    ensures host { HostKeepsSlots }
{}

/// What a packet finds of keys leads into the maps of their sites: to slots that there are, or to entries that operations on the map are to
/// make.
pub fn founds_lead()
    ensures begins { BeginsLead }
    ensures rows { RowsLead }
    ensures changes { ChangesLead }
    ensures writes { WritesLead }
{}
