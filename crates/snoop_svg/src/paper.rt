//! What a drawing is written for.

/// What is written: one SVG, or a page of HTML with an SVG for each sheet of rows.
#[derive(Clone, Copy, Debug, PartialEq, Eq)]
pub enum Form {
    Svg,
    Html,
}

/// The colours: those of the reader's system, or always those on light or on dark ground.
#[derive(Clone, Copy, Debug, PartialEq, Eq)]
pub enum Theme {
    Auto,
    Light,
    Dark,
}

/// What a drawing is written for: its form, its colours, and how many of its rows are shown. The others stay blank.
#[derive(Clone, Copy, Debug, PartialEq, Eq)]
pub struct Paper {
    pub form: Form,
    pub theme: Theme,
    pub shown: u64,
}
