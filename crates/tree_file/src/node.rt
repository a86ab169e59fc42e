// The nodes of a well-formed tree file, and the links of its gates.
ghost use Rattle.std.specs.Prelude.{◌≡◌, ◌≤◌, ◌<◌};
ghost use Rattle.fields.specs.Fields.{Is16};
ghost use Rattle.tree_file.specs.Format.{link_count, linked, links_from, node_count};
ghost use Rattle.tree_file.specs.WellFormed.{WellFormed};
ghost use Rattle.theory.specs.GateFold.{by_kind};
ghost use Rattle.tree_file.specs.NodeTable.{kind_as, read_node};
ghost use Rattle.tree_file.specs.Requirements.{HasLink};

use crate::format::{A_OFFSET, B_OFFSET, LINK_LENGTH, Record, link_at};
use crate::kind::RecordKind;
use fields::fields::field16_at;

// A gate fails when all its inputs do (AND), or when any does (OR).
#[derive(Clone, Copy)]
pub enum GateKind {
    All,
    Any,
}

impl GateKind {
    // Of two values, the one for an AND and the one for an OR.
    pub fn by_kind<T: Copy>(self, all: T, any: T) -> T
        ensures { result ≡ by_kind (kind_as self) all any }
    {
        match self {
            GateKind::All => all,
            GateKind::Any => any,
        }
    }
}

// A gate: its first link, and how many inputs its links name from there on.
#[derive(Clone, Copy)]
pub struct Gate {
    pub kind: GateKind,
    pub first: usize,
    pub inputs: usize,
}

// A basic event by its number, or a gate: no Option, since neither is the lack of the other. Nodes are numbers, as in
// the file: there is no heap for boxes.
#[derive(Clone, Copy)]
pub enum Node {
    Event(usize),
    Gate(Gate),
}

// Node i. `WellFormed` is a clause here and where a tree is read above: a struct of an accepted file would be made at
// each call, from the front of a store.
#[tactic(auto, unfolding(crate::specs::NodeTable::read_node))]
pub fn node_at(file: &[u8], i: usize) -> Node
    requires { WellFormed file.now × (i < node_count file.now) }
    ensures { result ≡ read_node file.now i }
{
    let record = Record { file, node: i };
    let kind = record.kind();
    let first = record.field(A_OFFSET);
    if kind == RecordKind::Event as usize {
        return Node::Event(first);
    }
    let inputs = record.field(B_OFFSET);
    let kind = if kind == RecordKind::And as usize {
        GateKind::All
    } else {
        GateKind::Any
    };
    Node::Gate(Gate {
        kind,
        first,
        inputs,
    })
}

// The part of the file that starts at a link.
pub fn links_from(file: &[u8], first: usize) -> &[u8]
    requires { WellFormed file.now × (first ≤ link_count file.now) }
    ensures { result.now ≡ links_from file.now first }
{
    let at = link_at(file, first);
    &file[at..]
}

// The node that link j of such a part names.
pub fn linked_node(links: &[u8], j: usize) -> usize
    requires { HasLink links.now j }
    ensures { Is16 result (linked links.now j) }
{
    field16_at(links, LINK_LENGTH * j)
}
