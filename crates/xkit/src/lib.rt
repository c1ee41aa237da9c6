//! The four externals of the kit, and the cells and the log that any external can keep.
//!
//! - The four take the turns of their table, each with its kind, flag and first cells (`KitExternal`).
//! - What a plan changes of cells, and its patch, is exact (`Cells`).
//! - A log that is kept has just the turns that were recorded, and follows the tables that it followed if the turn does
//!   (`TurnLog`).
#![tactic(auto)]

mod bins;
mod cells;
mod count;
mod gate;
mod kit_external;
mod relay;
mod turn_log;
mod turn_result;

pub use cells::Cells;
pub use kit_external::KitExternal;
pub use turn_log::TurnLog;
pub use turn_result::{TurnResult, changed, unchanged};
