//! Names and assignments of a wrong kind (IEEE 1364-2005, 4 to 6, 9 and 12; this project's profile).

mod check;
mod connections;
mod error;
mod expressions;
mod items;
mod roles;
mod sought;
mod statements;
mod targets;

pub use check::check_kinds;
pub use error::KindError;
