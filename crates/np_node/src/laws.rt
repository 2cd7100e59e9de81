//! The laws of nodes, over the definitions alone.
ghost use Rattle.np_node.specs.Images.{IsImage, IsImageFault};
ghost use Rattle.np_node.specs.Laws.{Exchange, FairExchange, HasOneFault, NeverFewer, Restored, Saved, SpellsOne, SpellsOrHasFault};
ghost use Rattle.np_node.specs.Messages.{IsMessage, IsMessageFault};

use np_versions::NormTable;

/// Bytes spell one message and have no fault place, or they spell none and have one. No spelling
/// is a proper prefix of another.
pub fn messages()
    ensures one { SpellsOne IsMessage }
    ensures fault { HasOneFault IsMessage IsMessageFault }
    ensures some { SpellsOrHasFault IsMessage IsMessageFault }
{}

/// Over both layouts bytes spell one image and have no fault place, or they spell none and have one.
/// No spelling of either layout is a proper prefix of another.
pub fn images()
    ensures one { SpellsOne IsImage }
    ensures fault { HasOneFault IsImage IsImageFault }
    ensures some { SpellsOrHasFault IsImage IsImageFault }
{}

/// A string that is assigned in two versions of a chain has one key under both. So what `accept`
/// gave under one of them is taken fairly under each: never with `KeyDiffers`, and with
/// `Unassigned` only where the receiver's version lacks a code point.
pub fn exchange()
    ensures key { Exchange }
    ensures fair { FairExchange }
{}

/// What a node keeps under a version of a chain may be kept under each version of it that assigns
/// no fewer code points: its own, each later one, and an earlier one with as many. Its image, of
/// either layout, is never refused there, but for want of memory.
pub fn saved()
    ensures saved { Saved }
    ensures fewer { NeverFewer }
{}

/// The image of a node, of either layout, is restored under the node's table, form and room as
/// that node, or memory ran out.
pub fn restored<T: NormTable>()
    ensures { Restored T.model }
{}
