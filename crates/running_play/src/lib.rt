//! The clients of a script on words that threads share.
//!
//! The seats of a new memory are dealt to the clients, and a worker plays the calls of one client on its seat, all workers at once:
//! each call once the gate lets it begin, and the machine of a call is left where its client stops. A worker tells a line for each
//! call that it has begun. One more client meets a note of each worker's seat, and the seats are given back. `specs/Worked.antt` says
//! what a worker does and tells; that it is then a client of the run, of which the laws of `run_laws` speak, is a law here.
//! `thread_play` joins the parts to the play of a script. The crate stands on `running_client` for the calls, on `run_laws`, and on
//! `script_value` and `play_report` for scripts and lines. The rule is written in docs/RUNNING.md.
#![tactic(auto)]

mod deal;
mod give;
mod laws;
mod observe;
mod team;
mod worker;

pub use deal::deal_all;
pub use give::give_all;
pub use laws::law_workers_have_run;
pub use observe::meet_all;
pub use team::{gathered, work_all};
pub use worker::{Worked, work};
