//! The callouts of one CPU for C programs: `include/callout.h`. A handle has a CPU's callouts of co_embed, and each export
//! makes one call of it.
#![tactic(auto)]

mod calls;
mod handle;
mod held;
mod inner;
mod life;
mod loose;
mod send;
mod service;

pub use calls::{
    callout_active, callout_async_drain, callout_deactivate, callout_drain_try, callout_pending,
    callout_reset, callout_schedule, callout_stop,
};
pub use handle::CalloutWheel;
pub use held::Held;
pub use inner::Inner;
pub use life::{callout_fini, callout_init, callout_land, callout_wheel_free, callout_wheel_new};
pub use service::{callout_advance, callout_begin, callout_earliest, callout_end, callout_next};
