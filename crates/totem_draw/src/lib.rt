//! A run drawn as a picture: a lane for each process, bands for its configurations, its sends and deliveries, and the places of a
//! fault (docs/PROGRAM.md, "Pictures").
//!
//! What may be relied on: `draw_no`, `draw_yes` and `draw_views` return, whatever run, faults and lists they are given, and fail only as out of
//! memory. No contract says what is drawn: tests show that.
//!
//! It takes its lanes, their layout and the words of its title from totem_explain.
#![tactic(auto)]

mod bands;
mod choice;
mod colours;
mod events;
mod frame;
mod legend;
mod lines;
mod marks;
mod membership;
mod picture;
mod routes;
mod shapes;
mod subject;
mod words;

pub use membership::draw_views;
pub use picture::{draw_no, draw_yes};
