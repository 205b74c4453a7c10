// Runs of calls: a worker picks them, and a journal keeps each with its answer.
mod call;
mod ending;
mod event;
mod run;
mod script;
mod script_play;
mod worker;

pub use call::Call;
pub use ending::Ending;
pub use event::{Event, UNPLAYED};
pub use run::{Played, work_tag};
pub use script::Script;
pub use script_play::play_script;
pub use worker::Worker;
