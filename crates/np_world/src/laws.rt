//! The laws of the machine and of histories, over the definitions alone: functions that do nothing, and
//! whose contracts are what is proved.
ghost use Rattle.np_node.specs.Laws.{Restored};
ghost use Rattle.np_world.specs.Laws.{HistoriesAreRuns, OneMessage, OneRun};
ghost use Rattle.np_world.specs.Moments.{itself};

use np_versions::NormTable;

/// From each world on, the machine has at most one run over a list of events: its replies and the
/// world at its end are determined. Nothing is asked of the versions.
pub fn one_run()
    ensures { OneRun }
{
    // Bytes spell one message at most, and have one fault place at most.
    np_node::laws::messages();
}

/// Whatever calls nodes make, from new nodes on and over the versions of a chain, with one form and
/// one room: the machine has exactly one run over the same events. Each reply is the machine's, and
/// each node keeps exactly its strings. Each key is that of its string under the chain's last
/// version, and what two nodes tell of two strings that both keep is the same.
///
/// A history is told by the contracts of the calls alone, over tables, or over versions in place of
/// tables, as the calls of C have it.
pub fn histories<T: NormTable>()
    ensures tables { HistoriesAreRuns T.model }
    ensures versions { HistoriesAreRuns itself }
{
    one_run();
    // What is told is taken, what is saved is restored, and bytes are one message or image at most.
    np_node::laws::messages();
    np_node::laws::images();
    np_node::laws::exchange();
    np_node::laws::saved();
    // Along a chain forms stay, and equal forms are equivalence.
    np_chain::laws::stability();
    np_chain::laws::idempotence();
}

/// Along a chain, the messages that two nodes of one form tell of a string are the same bytes. So
/// what a node tells later, or of a string that it took, is the message that was sent.
pub fn one_message()
    ensures { OneMessage }
{
    // A string has one key under all versions that assign it.
    np_node::laws::exchange();
}

/// The image of a node, of either layout, is restored under the node's version, form and room as
/// that node, or memory ran out: what `np_node::laws::restored` says of tables, over versions in
/// place of tables.
pub fn restored()
    ensures { Restored itself }
{}
