// The dual tree file, written to a lent buffer.
ghost use Rattle.std.specs.Prelude.{◌≡◌, ◌++◌, ◌+◌, ◌≤◌, length, drop};
ghost use Rattle.tree_file.specs.Format.{record_at, record_length};
ghost use Rattle.dual_files.specs.Tree.{exchanged, dual_record, dual_tree};
ghost use Rattle.dual_files.specs.Writing.{TreeAsked};

use crate::parts::write_with_parts;
use tree_file::format::{HEADER_LENGTH, RECORD_LENGTH};
use tree_file::kind::RecordKind;

// The kind of the dual node.
fn exchanged(kind: u8) -> u8
    ensures { result ≡ exchanged kind }
{
    match RecordKind::try_from(usize::from(kind)) {
        Ok(RecordKind::And) => RecordKind::Or as u8,
        Ok(RecordKind::Or) => RecordKind::And as u8,
        _ => kind,
    }
}

// The record of node i, with the fields a and b as held.
fn dual_record(tree: &[u8], i: usize) -> [u8; RECORD_LENGTH]
    requires { record_at tree.now i + record_length ≤ length tree.now }
    ensures { result ≡ dual_record tree.now i }
{
    let at = HEADER_LENGTH + RECORD_LENGTH * i;
    let mut record = [0; RECORD_LENGTH];
    byte_copy::copy(&tree[at..at + RECORD_LENGTH], &mut record);
    record[0] = exchanged(record[0]);
    record
}

// Writes the dual tree file to the front of the buffer.
pub fn write_tree(tree: &[u8], nodes: usize, buffer: &mut [u8])
    requires { TreeAsked tree.now nodes buffer.old }
    ensures { buffer.new
        ≡ dual_tree tree.now ++ drop (length tree.now) buffer.old }
{
    write_with_parts(
        tree,
        HEADER_LENGTH,
        RECORD_LENGTH,
        nodes,
        dual_record,
        buffer,
    );
}
