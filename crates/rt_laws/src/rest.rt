ghost use Rattle.std.specs.Prelude.{◌≡◌, ◌↔◌, ℕ, List, IsTrue};
ghost use Rattle.rt_base.specs.declared.id.TaskId.{TaskId};
ghost use Rattle.rt_model.specs.Parts.{effective_of};
ghost use Rattle.rt_model.specs.State.{task_part};
ghost use Rattle.rt_model.specs.Path.{IsCycle};
ghost use Rattle.rt_model.specs.Graph.{IsGraphPriority};
ghost use Rattle.rt_model.specs.laws.Rest.{IsAtRest};

use rt_core::Core;

/// Whether no chain walk is pending: none has links left to make, or a path to be confirmed.
///
/// At rest each task's effective priority is its graph priority, [`Core::graph_priority`], the least own one
/// among the task and all tasks from which edges lead to it, and no cycle stands. While walks are pending
/// neither has to hold: a priority may not have come to the end of its chain yet, and a cycle may stand of
/// which the walk that goes along it is still to tell.
pub fn at_rest(core: &Core) -> bool
    ensures rest { IsTrue result ↔ IsAtRest core.now.state }
    ensures priorities { IsTrue result → (t : TaskId) → IsGraphPriority core.now.state t (effective_of (task_part core.now.state t)) }
    ensures cycles { IsTrue result → (cycle : List (ℕ × ℕ)) → IsCycle core.now.state cycle → ⊥ }
{
    core.walks() == 0
}
