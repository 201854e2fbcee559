//! What is wrong if a typing rule is violated or a limit is exceeded, in the words of Go, with names and types as the programmer
//! wrote them. No contract says what is printed.
#![tactic(auto)]

mod declaring;
mod fresh;
mod limit;
mod naming;
mod near;
mod reading;
mod several;
mod statement;
mod text;
mod typing;

pub use reading::fault_of;
pub use several::{Other, OtherList, blanked, others};
pub use typing::{push_near, push_violation};
