// Lines of a site file: what one says, or why it is refused and at which column; the calls that lines make on a register, and what two lists of
// calls are worth; the image of a whole text, and the seal of a whole input.
#![tactic(auto)]

mod bytes;
pub mod calls;
mod cursor;
pub mod family_code;
pub mod fault;
pub mod handover;
pub mod kind;
pub mod line;
pub mod make;
pub mod reader;
pub mod site_input;
mod text;
