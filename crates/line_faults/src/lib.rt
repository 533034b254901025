//! Why a control line is refused: a reason, the member that it stands at, and the change.
//!
//! Each line and member has a name of its own here, so that a fault names one in two octets and
//! no memory.
#![tactic(auto)]

mod fault;
mod laws;
mod member;

pub use fault::{LineFault, LineReason};
pub use laws::{one_name, one_reason};
pub use member::Member;
