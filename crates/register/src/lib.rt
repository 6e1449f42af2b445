// The register of a fire panel's site: records go in by calls, closing gives their seal, and an image is checked by it.
#![tactic(auto)]

mod book;
pub mod check;
mod entries;
pub mod facts;
pub mod fault;
mod field;
pub mod framing;
mod image;
pub mod limits;
pub mod output;
pub mod record;
pub mod register;
pub mod seal_field;
mod sound;
