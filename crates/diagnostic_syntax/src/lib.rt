//! A syntax error in a sentence: what was found, what was expected, and what to write instead.
#![tactic(auto)]

ghost use Rattle.std.specs.Prelude.{◌≡◌};
ghost use Rattle.diagnostic_syntax.specs.Places.{place_of};

mod expected;
mod hint;
pub mod known;
mod misplaced;
mod nesting;
mod packages;
mod site;
mod trouble;
mod unexpected;

use go_text::{Fault, Place};
pub use site::{line_before, piece_at, shortened};
pub use unexpected::push_syntax;

/// The location of a fault, if it has one.
pub fn place_of(fault: &Fault) -> Option<Place>
    ensures { result ≡ place_of fault.now }
{
    match *fault {
        Fault::BadCharacter(place)
        | Fault::BadNumber(place)
        | Fault::OpenString(place)
        | Fault::OpenComment(place)
        | Fault::Syntax(place)
        | Fault::TooDeep(place)
        | Fault::Typing { place, .. }
        | Fault::Limit { place, .. } => Some(place),
        _ => None,
    }
}
