//! A session over a reader, a writer and a desk: the headline, as the contract of `run` and as laws.
//!
//! - `run` promises the headline. It says how the input ended, and where a run that broke stands: after lines answered
//!   whole and at most one more, whose answer the writer cut. It is out of memory only before its first line. Its
//!   bounds on lines and bytes hold wherever no read failed, and a device is blamed where it failed and nowhere else.
//! - Laws: each line, call and run does to the list of states, and to the logs of externals beside it, what the
//!   headline's page says (`lines_follow`, `moves_follow`, `plugs_follow`, `opens_follow`, `runs_follow`,
//!   `stops_follow`). Beside a desk whose count of failures didn't rise, all that was saved is kept (`saves_follow`).
//! - A desk that tells in the end what it heard has heard of each message of each line, once and in their order, and of
//!   no others (`messages_follow`).
//! - Along a run, however it ended, each state is whole (`runs_stay_whole`), and what `.save` keeps of one spells its
//!   stack and is read back as it (`saves_spell`).
#![tactic(auto)]

mod answer;
mod explainer;
mod law;
mod limits;
mod transcript;

pub use explainer::{Explainer, Silent};
pub use law::{
    lines_follow, messages_follow, moves_follow, opens_follow, plugs_follow, runs_follow,
    runs_stay_whole, saves_follow, saves_spell, stops_follow, tables_follow,
};
pub use limits::{MOST_BYTES, MOST_LINES};
pub use transcript::{Ran, RunFault, run};
