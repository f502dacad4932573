mod lines;
mod memory;
mod runs;
mod steps;
mod storm;
mod support;
