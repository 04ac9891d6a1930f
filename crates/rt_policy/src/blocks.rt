// The calls of a task, in blocks.
ghost use Rattle.std.specs.Prelude.{◌≡◌, ◌++◌, IfOk, OnOk};
ghost use Rattle.rt_policy.specs.Draws.{number_after};
ghost use Rattle.rt_policy.specs.Generator.{block_calls, block, blocks};

use crate::draws::Draws;
use crate::locks::{LOCAL, rwlock, rwsem, spin};
use rt_base::{Call, LockId};
use std::alloc::{AllocError, Global};

/// The number of blocks of a task.
const BLOCKS: u32 = 100;

/// The number of kinds of block.
const KINDS: u32 = 6;

/// The number of locks between which a block chooses.
const CHOICES: u32 = 12;

/// Draws the calls of a task.
#[tactic(auto, using(crate::proofs::Drawing::drawing, crate::proofs::GeneratedParts::parts))]
pub(crate) fn task_calls(alloc: Global, draws: &mut Draws) -> Result<Vec<Call>, AllocError>
    ensures calls { IfOk result (λ v. v.items ≡ blocks draws.old 100) }
    ensures next { OnOk result (draws.new ≡ number_after draws.old 300) }
{
    let mut calls = Vec::new(alloc);
    for n in 0..BLOCKS {
        push_block(&mut calls, draws)?;
    }
    Ok(calls)
}

/// Draws a block, and adds its calls.
#[tactic(auto, using(crate::proofs::Drawing::drawing))]
fn push_block(calls: &mut Vec<Call>, draws: &mut Draws) -> Result<(), AllocError>
    ensures calls { OnOk result (calls.new.items ≡ calls.old.items ++ block draws.old) }
    ensures next { draws.new ≡ number_after draws.old 3 }
{
    let kind = draws.below(KINDS);
    let p = draws.below(CHOICES);
    let q = draws.below(CHOICES);
    push_calls(calls, kind, p, q)
}

/// Adds the calls of a block of that kind, where p and q say which locks.
#[tactic(auto, unfolding(crate::specs::Generator::block_calls))]
fn push_calls(calls: &mut Vec<Call>, kind: u32, p: u32, q: u32) -> Result<(), AllocError>
    ensures { OnOk result (calls.new.items ≡ calls.old.items ++ block_calls kind p q) }
{
    let (m, n) = (LockId(p), LockId(q));
    match kind {
        0 => calls.extend_from_slice(&[
            Call::Lock(m),
            Call::Lock(n),
            Call::Unlock(n),
            Call::Unlock(m),
        ]),
        1 => calls.extend_from_slice(&[Call::Spin(spin(p)), Call::Unspin(spin(p))]),
        2 => calls.extend_from_slice(&[Call::Read(rwlock(p)), Call::Unread(rwlock(p))]),
        3 => calls.extend_from_slice(&[Call::Write(rwsem(p)), Call::Unwrite(rwsem(p))]),
        4 => {
            let inner = rwlock(q);
            calls.extend_from_slice(&[
                Call::Lock(m),
                Call::Write(inner),
                Call::Unwrite(inner),
                Call::Unlock(m),
            ])
        }
        _ => calls.extend_from_slice(&[Call::Local(LOCAL), Call::Unlocal(LOCAL)]),
    }
}
