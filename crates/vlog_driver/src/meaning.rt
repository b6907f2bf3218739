//! What a design text means (IEEE 1364-2005; this project's profile), as equations over the trees and over numbers by full name.

mod laws;

pub use laws::{meaning_shown, own_numbers_decide};
