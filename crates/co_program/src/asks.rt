//! What an action asks.
ghost use Rattle.std.specs.Prelude.{◌≡◌};

use crate::action::{Action, Asked};
use crate::cursor::InService;
use co_object::{Op, OwnKind, QOp, RunOp};

pub(crate) fn asks_run(v: &InService, op: RunOp) -> Action
    ensures { result ≡ Action.Asks v.now.act (Asked.Callout v.now.i (Op.Run op)) }
{
    asks_callout(v.act, v.i, Op::Run(op))
}

pub(crate) fn asks_callout(act: u64, i: u32, op: Op) -> Action
    ensures { result ≡ Action.Asks act (Asked.Callout i op) }
{
    Action::Asks {
        act,
        asked: Asked::Callout { i, op },
    }
}

pub(crate) fn asks_queue(act: u64, cpu: u32, op: QOp) -> Action
    ensures { result ≡ Action.Asks act (Asked.Queue cpu op) }
{
    Action::Asks {
        act,
        asked: Asked::Queue { cpu, op },
    }
}

pub(crate) fn asks_itself(act: u64, kind: OwnKind) -> Action
    ensures { result ≡ Action.Asks act (Asked.Itself kind) }
{
    Action::Asks {
        act,
        asked: Asked::Itself(kind),
    }
}
