//! What all sheets of a drawing share.
ghost use Rattle.std.specs.Prelude.{◌≡◌, ◌≤◌, ◌+◌};
ghost use Rattle.snoop_svg.specs.Sheets.{width_of};
ghost use Rattle.snoop_svg.specs.Drawings.{most_cells, rows_per_sheet, sheet_rows};

use crate::columns::Column;
use crate::paper::{Form, Paper};
use crate::size::MAX_CELLS;
use crate::sizes::Sizes;
use snoop_engine::Choice;
use std::marker::Model;

/// What all sheets of a drawing share: its sizes and columns, where replies begin, which steps are drawn and how many, and
/// what it is written for.
#[derive(Drop)]
pub(crate) struct Plan {
    sizes: Sizes,
    columns: Vec<Column>,
    replies: u32,
    choice: Choice,
    rows: u64,
    paper: Paper,
}

impl Model for Plan {
    ghost use Rattle.snoop_svg.specs.Sheets.{Plan as Shared};

    ghost Value = { Shared };

    ghost view = { λ p. record { sizes = p.sizes; columns = p.columns.items; replies = p.replies; choice = p.choice; rows = p.rows; paper = p.paper } };
}

impl Plan {
    pub(crate) fn new(
        sizes: Sizes,
        columns: Vec<Column>,
        replies: u32,
        choice: Choice,
        rows: u64,
        paper: Paper,
    ) -> Self
        ensures { result ≡ record { sizes = sizes; columns = columns.items; replies = replies; choice = choice; rows = rows; paper = paper } }
    {
        Plan {
            sizes,
            columns,
            replies,
            choice,
            rows,
            paper,
        }
    }

    pub(crate) fn sizes(&self) -> Sizes
        ensures { result ≡ self.now.sizes }
    {
        self.sizes
    }

    pub(crate) fn columns(&self) -> &[Column]
        ensures { result.now ≡ self.now.columns }
    {
        &self.columns
    }

    pub(crate) fn replies(&self) -> u32
        ensures { result ≡ self.now.replies }
    {
        self.replies
    }

    pub(crate) fn choice(&self) -> Choice
        ensures { result ≡ self.now.choice }
    {
        self.choice
    }

    pub(crate) fn paper(&self) -> Paper
        ensures { result ≡ self.now.paper }
    {
        self.paper
    }

    /// How wide a drawing is: its legend has room in any.
    pub(crate) fn width(&self) -> u64
        ensures { result ≡ width_of self.now }
    {
        let rows = self.replies as u64 + self.sizes.reply as u64;
        12 + rows.max(788)
    }

    /// How many rows a sheet has at most.
    pub(crate) fn rows_per_sheet(&self) -> u32
        ensures value { result ≡ rows_per_sheet self.now.paper.form }
        ensures some { 1 ≤ result }
        ensures few { result ≤ most_cells }
    {
        match self.paper.form {
            // One sheet: no drawing has more rows than cells.
            Form::Svg => MAX_CELLS,
            Form::Html => 24,
        }
    }

    /// How many rows the sheet has that begins after `done` rows.
    pub(crate) fn sheet_rows(&self, done: u64) -> u32
        ensures value { result ≡ sheet_rows self.now done }
        ensures few { result ≤ most_cells }
    {
        let left = self.rows.saturating_sub(done);
        let most = self.rows_per_sheet();
        if left < most as u64 {
            left as u32
        } else {
            most
        }
    }
}
