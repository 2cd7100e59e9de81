//! Schedules, replayed by real nodes.
ghost use Rattle.std.specs.Prelude.{◌≡◌, ◌<◌, ◌≤◌, ◌↔◌, ℕ, length, map, slice_get, slice_index, None, Contains, IfOk, IfSome, IsSome, MatchOption};
ghost use Rattle.std.specs.Option.{option_map};
ghost use Rattle.np_versions.specs.Versions.{VersionData};
ghost use Rattle.np_node.specs.Nodes.{state_of};
ghost use Rattle.np_schedules.specs.Events.{Save};
ghost use Rattle.np_world.specs.Moments.{AreNewAt, AreRules};
ghost use Rattle.np_world.specs.Reports.{image_at, index_at, node_at, replies_of};
ghost use Rattle.np_world.specs.Runs.{AgreeOn, AnswerAlike, AreKeysUnder, HasOneRun, InTheRun, IsLast, IsNodeOf, LendsImages, LendsMessages, texts_in};
ghost use Rattle.np_world.specs.inside.Played.{IsPlayed, IsReplayed};
ghost use Rattle.np_world.specs.inside.Views.{moment_of, placed_of, rules_of};
ghost use Rattle.np_schedules.specs.Schedules.{IsStandable, NameNodes, NameVersions};
ghost use Rattle.np_schedules.specs.EventLines.{event_of};

use crate::replay_nodes::{Common, ReplayNode};
use crate::replies::Reply;
use crate::report::Report;
use crate::world_steps::step_world;
use np_chain::Chain;
use np_code_points::{Form, Memory};
use np_node::Node;
use np_schedules::{EventLine, Schedule};
use np_versions::NormTable;
use std::alloc::Global;

/// Each node at the start: it keeps nothing, under the version that the schedule gives it.
fn first_replay_nodes<'t, T: NormTable>(
    common: &Common<'_, 't, T>,
    starts: &[usize],
) -> Result<Vec<ReplayNode<'t, T>>, Memory>
    requires room { common.now.room ≤ 65536 }
    requires starts { (i : ℕ) → i < length starts.now → slice_index starts.now i < length common.now.chain.now }
    ensures { IfOk result (λ replay_nodes. AreNewAt (rules_of common.now) starts.now (map placed_of replay_nodes.items)) }
{
    let mut replay_nodes = Vec::with_capacity(common.alloc, starts.len())?;
    for start in starts {
        let table = common.chain.at(*start);
        replay_nodes.push(ReplayNode {
            index: *start,
            node: Node::new(common.alloc, table, common.form, common.room),
            image: None,
        })?;
    }
    Ok(replay_nodes)
}

/// A reply to each event, and the messages that were sent.
#[derive(Drop)]
struct Told {
    replies: Vec<Reply>,
    sent: Vec<Vec<u8>>,
}

/// Lets the events happen, one after another.
fn run_events<'t, T: NormTable>(
    common: &Common<'_, 't, T>,
    replay_nodes: &mut [ReplayNode<'t, T>],
    starts: &[usize],
    events: &[EventLine],
) -> Result<Told, Memory>
    requires rules { AreRules T.model (rules_of common.now) }
    requires new { AreNewAt (rules_of common.now) starts.now (map placed_of replay_nodes.old) }
    requires named { NameNodes (length starts.now) (map event_of events.now) }
    requires versions { NameVersions (length common.now.chain.now) (map event_of events.now) }
    ensures { IfOk result (λ told. IsPlayed T.model (rules_of common.now) starts.now (map event_of events.now) told.replies.items
        (moment_of replay_nodes.new told.sent.items)) }
{
    // At each moment of a history each node has the table of its place.
    crate::laws::histories::<T>();
    let mut replies = Vec::with_capacity(common.alloc, events.len())?;
    let mut sent = Vec::new(common.alloc);
    for event in events {
        replies.push(step_world(common, replay_nodes, &mut sent, event)?)?;
    }
    Ok(Told { replies, sent })
}

/// Replays a schedule by nodes.
fn play<'t, T: NormTable>(
    common: &Common<'_, 't, T>,
    schedule: &Schedule,
) -> Result<Report<'t, T>, Memory>
    requires rules { AreRules T.model (rules_of common.now) }
    requires versions { schedule.now.versions ≡ length common.now.chain.now }
    requires room { common.now.room ≡ schedule.now.room }
    requires stands { IsStandable schedule.now }
    ensures { IfOk result (λ report. IsReplayed T.model common.now.chain.now common.now.form schedule.now report) }
{
    let starts = schedule.starts();
    let mut replay_nodes = first_replay_nodes(common, starts)?;
    let Told { replies, sent } = run_events(common, &mut replay_nodes, starts, schedule.events())?;
    Ok(Report {
        replies,
        sent,
        replay_nodes,
    })
}

/// What happens to nodes over the versions of a chain. Each node keeps strings beside their keys of one form,
/// tells them to others in messages, forgets them, saves and restarts, and goes on from version to version, as
/// the schedule has it. Each reply is that of the machine that keeps strings alone, and each node keeps at the
/// end exactly the machine's strings. Each key is that of its string under the chain's last version, and what
/// two nodes tell of two strings that both keep is the same.
///
/// An event costs what the node's call costs: a string one normal form and one look-up by hash, an
/// upgrade one comparison of two versions, a save or a restart time linear in what the node keeps.
///
/// # Errors
///
/// `Memory` where memory ran out.
pub fn replay<'t, T: NormTable>(
    alloc: Global,
    chain: &Chain<'t, T>,
    form: Form,
    schedule: &Schedule,
) -> Result<Report<'t, T>, Memory>
    requires { schedule.now.versions ≡ length chain.now }
    ensures run { IfOk result (λ report. HasOneRun T.model chain.now form schedule.now) }
    ensures replies { IfOk result (λ report. InTheRun T.model chain.now form schedule.now (λ replies world. replies_of report ≡ replies)) }
    ensures indices { IfOk result (λ report. InTheRun T.model chain.now form schedule.now
        (λ replies world. (i : ℕ) → index_at report i ≡ option_map (λ node. node.index) (slice_get world.nodes i))) }
    ensures strings { IfOk result (λ report. InTheRun T.model chain.now form schedule.now (λ replies world. (i : ℕ)
        → option_map (λ node. texts_in node.entries) (node_at report i) ≡ option_map (λ node. node.strings) (slice_get world.nodes i))) }
    ensures keys { IfOk result (λ report. (last : VersionData) → IsLast (map T.model chain.now) last
        → (i : ℕ) → IfSome (node_at report i) (λ node. AreKeysUnder last form node.entries)) }
    ensures nodes { IfOk result (λ report. (i : ℕ) → MatchOption (node_at report i) (index_at report i ≡ None)
        (λ node. IsNodeOf chain.now form schedule.now.room (index_at report i) node)) }
    ensures sent { IfOk result (λ report. (last : VersionData) → IsLast (map T.model chain.now) last
        → InTheRun T.model chain.now form schedule.now (LendsMessages last form report)) }
    ensures saved { IfOk result (λ report. (last : VersionData) → IsLast (map T.model chain.now) last
        → InTheRun T.model chain.now form schedule.now (LendsImages (map T.model chain.now) last form report)) }
    ensures images { IfOk result (λ report. (i : ℕ) → IsSome (image_at report i) ↔ Contains schedule.now.events (Save i)) }
    ensures equivalence { IfOk result (λ report. (last : VersionData) → IsLast (map T.model chain.now) last
        → (i : ℕ) → IfSome (node_at report i) (λ node. AgreeOn (T.model node.table) last form node.entries)) }
    ensures alike { IfOk result (λ report. (last : VersionData) → IsLast (map T.model chain.now) last
        → (i j : ℕ) → IfSome (node_at report i) (λ node. IfSome (node_at report j)
        (λ other. AnswerAlike last form (state_of T.model node) (state_of T.model other)))) }
{
    // What was replayed is a history of calls, and each history is a run of the machine.
    crate::laws::histories::<T>();
    // A chain's versions extend one another.
    chain.meets_conditions();
    let room = schedule.room();
    let common = Common {
        alloc,
        chain,
        form,
        room,
    };
    play(&common, schedule)
}
