// The format's numbers, as specs/Format.antt has them, and the readers of its fields. The contracts tie the two.
ghost use Rattle.std.specs.Prelude.{◌≡◌, ◌+◌, ◌*◌, ◌≤◌, ◌<◌, length};
ghost use Rattle.fields.specs.Fields.{field16, Is16};
ghost use Rattle.tree_file.specs.Format.{has_letters, header_length, kind, link_at, node_count};
ghost use Rattle.tree_file.specs.Format.{record_at, record_length};
ghost use Rattle.tree_file.specs.Tallies.{input_count};
ghost use Rattle.tree_file.specs.Requirements.{HasRecord};

use crate::kind::RecordKind;
use fields::fields::{byte_at, field16_at};

// The lengths in bytes of the header, a record and a link.
pub const HEADER_LENGTH: usize = 9;

pub const RECORD_LENGTH: usize = 5;

pub const LINK_LENGTH: usize = 2;

// Where the header's fields stand.
pub const LETTERS_PLACE: usize = 0;

pub const VERSION_PLACE: usize = 3;

pub const NUMBER_PLACE: usize = 5;

pub const NODES_PLACE: usize = 7;

// Where the fields of a record stand in it.
pub const A_OFFSET: usize = 1;

pub const B_OFFSET: usize = 3;

// The version that is read, and the most nodes of a file and inputs of a gate.
pub const VERSION: usize = 1;

pub const MAX_NODES: usize = 1024;

pub const MAX_INPUTS: usize = 16;

// Whether the file begins with FTF.
pub fn has_letters(file: &[u8]) -> bool
    ensures { result ≡ has_letters file.now }
{
    file.starts_with(b"FTF")
}

// N, the number of nodes: no `u16`, as fields reads it, since it is a count where it is used, as the other fields are.
pub fn node_count(file: &[u8]) -> usize
    requires { header_length ≤ length file.now }
    ensures { Is16 result (node_count file.now) }
{
    field16_at(file, NODES_PLACE)
}

// Where the record of node i begins.
pub fn record_at(i: usize) -> usize
    requires { i < 65536 }
    ensures { result ≡ header_length + record_length * i }
{
    HEADER_LENGTH + RECORD_LENGTH * i
}

// Where link j begins.
pub fn link_at(file: &[u8], j: usize) -> usize
    requires { (header_length ≤ length file.now) × (j < 65536) }
    ensures { result ≡ link_at file.now j }
{
    let nodes = node_count(file);
    record_at(nodes) + LINK_LENGTH * j
}

// The record of a node, within its file.
#[derive(Clone, Copy)]
pub struct Record<'a> {
    pub file: &'a [u8],
    pub node: usize,
    pub ghost inside: { HasRecord file.now node },
    pub ghost node_small: { node < 65536 },
}

impl Record<'_> {
    // Its first byte, the kind of the node: a number and no `RecordKind`, since in a file any byte may stand there,
    // and a reader of an accepted file would match an error that can't be.
    pub fn kind(self) -> usize
        ensures { result ≡ kind self.entry.file.now self.entry.node }
    {
        byte_at(self.file, record_at(self.node))
    }

    // Its field at an offset.
    pub fn field(self, offset: usize) -> usize
        requires { offset + 1 < record_length }
        ensures { Is16 result (field16 self.entry.file.now (record_at self.entry.file.now self.entry.node + offset)) }
    {
        field16_at(self.file, record_at(self.node) + offset)
    }

    // The number of the node's inputs: 0 of a basic event.
    #[tactic(auto, unfolding(crate::specs::Tallies::input_count))]
    pub fn input_count(self) -> usize
        ensures { Is16 result (input_count self.entry.file.now self.entry.node) }
    {
        if self.kind() == RecordKind::Event as usize {
            return 0;
        }
        self.field(B_OFFSET)
    }
}
