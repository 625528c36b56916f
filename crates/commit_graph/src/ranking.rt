//! Generations, by a descent from each commit to those without parents.
ghost use Rattle.std.specs.Prelude.{◌≡◌, ◌++◌, [], ◌∷◌, true, length, IfErr, OnOk, OnErr, Some};
ghost use Rattle.commit_graph.specs.History.{Name, IsWhole};
ghost use Rattle.commit_graph.specs.Node.{held_of};
ghost use Rattle.commit_graph.specs.Level.{level_at, AreLevels, SetsLevel, GivesUp, NoneEntered, Settles};
ghost use Rattle.commit_graph.specs.Walk.{is_in};

use crate::GraphFail;
use crate::level::{Level, Step};
use crate::node::{Nodes, enter_at, level, next_step, place_after, set_level};
use object_frames::Id;

// The commit is looked at now.
fn enter(nodes: &mut Nodes, trail: &mut Vec<Id>, id: Id, place: usize) -> Result<(), GraphFail>
    ensures trail { OnOk result (trail.new.items ≡ trail.old.items ++ id ∷ []) }
    ensures nodes { OnOk result (SetsLevel nodes.old.entries nodes.new.entries id Level.Entered) }
    ensures same { OnErr result (nodes.new.entries ≡ nodes.old.entries) }
    ensures err { IfErr result (λ e. e ≡ GraphFail.Memory) }
{
    let Ok(_) = trail.push(id) else {
        return Err(GraphFail::Memory);
    };
    enter_at(nodes, id, place);
    Ok(())
}

// None of them has a generation.
fn give_up(nodes: &mut Nodes, trail: &mut Vec<Id>)
    requires { (id : Name) → is_in trail.old.items id ≡ true → level_at nodes.old.entries id ≡ Some Level.Entered }
    ensures given { GivesUp nodes.old.entries nodes.new.entries trail.old.items }
    ensures empty { trail.new.items ≡ [] }
{
    while let Some(id) = trail.pop() {
        set_level(nodes, id, Level::Endless);
    }
}

/// Looks at a commit and at all its ancestors.
pub fn settle(nodes: &mut Nodes, trail: &mut Vec<Id>, id: Id) -> Result<(), GraphFail>
    requires whole { IsWhole (held_of nodes.old.entries) }
    requires levels { AreLevels nodes.old.entries }
    requires rest { NoneEntered nodes.old.entries }
    requires empty { trail.old.items ≡ [] }
    ensures ok { OnOk result (Settles nodes.old.entries nodes.new.entries id) }
    ensures trail { OnOk result (trail.new.items ≡ []) }
    ensures held { held_of nodes.new.entries ≡ held_of nodes.old.entries }
    ensures size { length nodes.new.entries ≡ length nodes.old.entries }
    ensures err { IfErr result (λ e. e ≡ GraphFail.Memory) }
{
    if level(nodes, id) != Some(Level::Unknown) {
        return Ok(());
    }
    enter(nodes, trail, id, 0)?;
    let mut from = 0;
    while trail.len() > 0 {
        let top = trail[trail.len() - 1];
        match next_step(nodes, top, from) {
            Step::Enter(parent, place) => {
                enter(nodes, trail, parent, place)?;
                from = 0;
            }
            Step::Settle(n) => {
                from = place_after(nodes, top);
                set_level(nodes, top, Level::Known(n));
                let _ = trail.pop();
            }
            Step::GiveUp => give_up(nodes, trail),
        }
    }
    Ok(())
}
