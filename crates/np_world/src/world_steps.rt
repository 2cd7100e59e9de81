//! One event after another.
ghost use Rattle.std.specs.Prelude.{◌<◌, ◌≤◌, length, All, IfOk};
ghost use Rattle.np_schedules.specs.Events.{node_of};
ghost use Rattle.np_schedules.specs.Schedules.{NamesVersion};
ghost use Rattle.np_world.specs.Histories.{IsDone};
ghost use Rattle.np_schedules.specs.EventLines.{event_of};
ghost use Rattle.np_world.specs.inside.Placing.{IsPlaced};
ghost use Rattle.np_world.specs.inside.Views.{moment_of, placed_of, rules_of};

use crate::node_steps::{accept, ask, deliver, forge, forget, restart, save, upgrade};
use crate::replay_nodes::{Common, ReplayNode};
use crate::replies::Reply;
use np_code_points::Memory;
use np_schedules::EventLine;
use np_versions::NormTable;

/// What an event does to the nodes and to what was sent.
pub(crate) fn step_world<'t, T: NormTable>(
    common: &Common<'_, 't, T>,
    replay_nodes: &mut [ReplayNode<'t, T>],
    sent: &mut Vec<Vec<u8>>,
    event: &EventLine,
) -> Result<Reply, Memory>
    requires placed { All (λ n. IsPlaced (rules_of common.now) (placed_of n)) replay_nodes.old }
    requires room { common.now.room ≤ 65536 }
    requires named { node_of (event_of event.now) < length replay_nodes.old }
    requires version { NamesVersion (length common.now.chain.now) (event_of event.now) }
    ensures { IfOk result (λ reply. IsDone T.model (rules_of common.now) (moment_of replay_nodes.old sent.old.items) (event_of event.now) reply
        (moment_of replay_nodes.new sent.new.items)) }
{
    match event {
        EventLine::Accept { node, string } => {
            accept(&mut replay_nodes[*node], sent, string.as_str())
        }
        EventLine::Deliver { node, message } => deliver(&mut replay_nodes[*node], sent, *message),
        EventLine::Upgrade { node } => Ok(upgrade(common, &mut replay_nodes[*node])),
        EventLine::Save { node } => save(&mut replay_nodes[*node]),
        EventLine::Restart { node } => {
            let replay_node = &mut replay_nodes[*node];
            let place = replay_node.index;
            restart(common, replay_node, place)
        }
        EventLine::RestartUnder { node, version } => {
            restart(common, &mut replay_nodes[*node], *version)
        }
        EventLine::Ask { node, left, right } => Ok(ask(
            &replay_nodes[*node],
            left.as_str(),
            right.as_str(),
        )),
        EventLine::Forget { node, string } => {
            Ok(forget(&mut replay_nodes[*node], string.as_str()))
        }
        EventLine::Forge { node, bytes } => forge(&mut replay_nodes[*node], bytes.as_slice()),
    }
}
