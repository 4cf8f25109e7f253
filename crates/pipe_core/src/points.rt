//! What holds of all clocks so far holds with one more.

ghost use Rattle.pipe_core.specs.Points.{ClocksKeepPoints};

use crate::laws;

/// Each clock keeps the points: order, cells, marks, what packets hold of the maps, runs one after another, whose changes packets have seen, and what
/// updates found.
pub fn points()
    ensures { ClocksKeepPoints }
{
    laws::in_order();
    laws::computed();
    laws::marks();
    laws::right();
    laws::runs_in_turn();
    laws::ahead();
    laws::change_causes();
    laws::found();
}
