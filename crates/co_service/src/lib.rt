//! The running service: the desks of all CPUs, each behind a lock of its own, from the boot to the end.
#![tactic(auto)]

mod alone;
mod boot;
mod calls;
mod closing;
mod crew;
mod desk_parts;
mod ends;
mod fresh;
mod joining;
mod laws;
mod locked;
mod service;
mod starts;
mod wheels;

pub use closing::Closing;
pub use co_desk::{
    CpuStory, Finished, Line, Made, Name, Params, Passes, Popped, Scanned, Taken, TimerStory, Told,
    begins_by_own, ends_by_own, served_by_own,
};
pub use crew::Crew;
pub use fresh::Fresh;
pub use laws::begins_free;
pub use locked::DeskHold;
pub use service::Service;
