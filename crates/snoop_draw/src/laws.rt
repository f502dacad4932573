//! What holds of every drawing, which is of the run of some steps. These functions do nothing: a proof calls them for what they
//! ensure.
ghost use Rattle.snoop_draw.specs.Laws.{RowsHaveOneEdge, UnaskedHoldNothing};

use snoop_machine::laws::the_run_is_coherent;

/// In each row of a panel at most one core may write, and where one may, no other may read.
pub fn one_edge()
    ensures { RowsHaveOneEdge }
{
    the_run_is_coherent();
}

/// A core that asks for a block in no step of a run is in I throughout, so the columns that are left out would hold nothing.
pub fn unasked()
    ensures { UnaskedHoldNothing }
{}
