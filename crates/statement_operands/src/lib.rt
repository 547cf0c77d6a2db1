//! What a statement asks of the names of a session: its demands, which of them the names don't meet, and
//! the values of its operands.
#![tactic(auto)]

mod asked;
mod demands;
mod names;
mod operands;
mod stop;

pub use asked::{name_taken, unknown_name, wrong_kind};
pub use demands::{Demands, Need, asked_by};
pub use names::Names;
pub use operands::{Held, Operands, listed_module, resolve};
pub use stop::{MeaningKind, Stop};
