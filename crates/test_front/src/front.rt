//! What the front's contracts cannot say: that calls succeed, that threads wake, that nothing is lost between them. Where
//! growths are refused on purpose only the openings and creations of `creations` are tried: a crew has no second try.
mod again_rows;
mod asks;
mod creations;
mod crew;
mod jobs;
mod lives;
mod named_rows;
mod parts;
mod plan;
mod replay;
mod roams;
mod rows;
mod runs;
mod says;
mod seen;
mod steps;
mod told;
mod wakes;
