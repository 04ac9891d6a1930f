// The links of a path, each a task and a lock.
ghost use Rattle.std.specs.Prelude.{◌≡◌, IfSome};
ghost use Rattle.rt_events.specs.reading.Operands.{links_in, path_operands};
ghost use Rattle.rt_events.specs.reading.Tail.{plain_front, plain_rest};

use super::line_words::LineWords;
use super::locks::lock_in;
use super::operands::Operands;
use rt_base::Path;
use rt_base::limits::MAX_TASKS;
use rt_script::Script;

// The links of a path that has some.
pub(crate) fn path_operands(script: &Script, words: &mut LineWords) -> Option<Operands>
    ensures told { result ≡ path_operands script.now (plain_front words.old) }
    ensures rest { IfSome result (λ o. words.new ≡ plain_rest words.old) }
{
    let path = links(script, words)?;
    if path.len() == 0 {
        return None;
    }
    Some(Operands {
        lock: Some(path.at(0).1),
        path,
        ..Operands::number_alone(0)
    })
}

// As many links as there may be tasks.
fn links(script: &Script, words: &mut LineWords) -> Option<Path>
    ensures links { result ≡ links_in script.now MAX_TASKS (plain_front words.old) }
    ensures rest { IfSome result (λ o. words.new ≡ plain_rest words.old) }
{
    let _tasks = script.tasks();
    let _locks = script.locks();
    let mut path = Path::empty();
    for _ in 0..MAX_TASKS {
        let Some(t) = words.next_plain() else {
            return Some(path);
        };
        let l = words.next_plain()?;
        let t = script.task_named(t)?;
        let l = lock_in(script, l)?;
        path.push(t, l);
    }
    if words.next_plain().is_some() {
        return None;
    }
    Some(path)
}
