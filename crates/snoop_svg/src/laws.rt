//! What holds of every drawing, which is of the run of some steps. These functions do nothing: a proof calls them for what they
//! ensure.
ghost use Rattle.snoop_svg.specs.Laws.{NewWordsAreBold, RowsHaveOneEdge};

use snoop_draw::laws;

/// In each row of a panel at most one core's band has an edge, and where one has, no other core has a band.
pub fn one_edge()
    ensures { RowsHaveOneEdge }
{
    laws::one_edge();
}

/// The words of a cell are bold exactly where they differ from those above it.
pub fn new_words()
    ensures { NewWordsAreBold }
{}
