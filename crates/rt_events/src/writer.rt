// What a writer's event tells of its sleep.
ghost use Rattle.std.specs.Prelude.{◌≡◌};
ghost use Rattle.rt_model.specs.events.Readers.{where_slept};

use rt_base::TaskId;
use rt_model::Event;

/// The task of a writer's event that gets in, where it has slept: it is named as the owner then.
pub fn slept(e: &Event) -> Option<TaskId>
    ensures { result ≡ where_slept e.now.task e.now.owner }
{
    match e.owner {
        Some(_) => Some(e.task),
        None => None,
    }
}
