ghost use Rattle.std.specs.Prelude.{◌≡◌, ◌<◌, length, IfSome};
ghost use Rattle.rt_model.specs.Order.{if_enabled, is_walking, chosen_task};
ghost use Rattle.rt_model.specs.Run.{lowest, or_else, is_enabled};

use rt_base::TaskId;
use rt_core::Core;

/// Who moves after the picks: the task that moved last, while it has a next event; else the lowest one
/// whose chain walk is unfinished; else the lowest one. `None` where no task has a next event.
pub fn pick_next(core: &Core, last: Option<TaskId>) -> Option<TaskId>
    requires { IfSome last (λ t. t.0 < length core.now.state.threads) }
    ensures { result ≡ chosen_task core.now.state last }
{
    match still_enabled(core, last) {
        Some(t) => Some(t),
        None => lowest_walking_or_enabled(core),
    }
}

// The lowest task whose chain walk is unfinished; else the lowest one.
fn lowest_walking_or_enabled(core: &Core) -> Option<TaskId>
    ensures { result ≡ or_else (lowest (is_walking core.now.state) (length core.now.state.threads))
        (lowest (is_enabled core.now.state) (length core.now.state.threads)) }
{
    match core.lowest_walking() {
        Some(t) => Some(t),
        None => core.lowest_enabled(),
    }
}

// The task that moved last, where it has a next event.
fn still_enabled(core: &Core, last: Option<TaskId>) -> Option<TaskId>
    requires { IfSome last (λ t. t.0 < length core.now.state.threads) }
    ensures { result ≡ if_enabled core.now.state last }
{
    let Some(t) = last else {
        return None;
    };
    if core.is_enabled(t) { Some(t) } else { None }
}
