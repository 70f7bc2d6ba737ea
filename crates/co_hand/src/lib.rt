//! Handlers: the functions of callouts, the port through which they make calls, and the gate before each act.
#![tactic(auto)]

mod fire;
mod func_table;
mod gate;
mod handler;
mod operation;
mod port;
mod port_call;

pub use fire::Fire;
pub use func_table::FuncTable;
pub use gate::{Gate, OpenGate};
pub use handler::Handler;
pub use operation::plain_op;
pub use port::Port;
pub use port_call::{PortCall, PortReply};
