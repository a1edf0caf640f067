//! The key of a node with what of its run's text isn't in order for good.
ghost use Rattle.std.specs.Prelude.{◌≡◌, ◌++◌, [], OnOk};
ghost use Rattle.loose.specs.Classes.{class_in};
ghost use Rattle.wavetexts.specs.Reading.{text_with};
ghost use Rattle.lawful.specs.ArrangedNodes.{IsTailKey, bytes_code, number_code, tail_code};

use crate::node::LooseNode;
use crate::search_room::SearchRoom;
use std::alloc::AllocError;
use wavetexts::TextTail;

// Puts the code of a number behind bytes.
fn put_number(bytes: &mut Vec<u8>, number: usize) -> Result<(), AllocError>
    ensures { OnOk result (bytes.new.items ≡ bytes.old.items ++ number_code number) }
{
    let mut rest = number;
    while rest > 0 {
        bytes.push(1)?;
        rest -= 1;
    }
    bytes.push(0)?;
    Ok(())
}

// Puts the code of a text behind bytes.
fn put_bytes(bytes: &mut Vec<u8>, text: &[u8]) -> Result<(), AllocError>
    ensures { OnOk result (bytes.new.items ≡ bytes.old.items ++ bytes_code text.now) }
{
    let mut rest = text;
    while let Some((first, more)) = rest.split_first() {
        bytes.extend_from_slice(&[1, *first])?;
        rest = more;
    }
    bytes.push(0)?;
    Ok(())
}

// Puts the code of what isn't in order for good behind bytes.
fn put_tail(bytes: &mut Vec<u8>, tail: &TextTail) -> Result<(), AllocError>
    ensures { OnOk result (bytes.new.items ≡ bytes.old.items ++ tail_code (text_with [] tail.now)) }
{
    put_number(bytes, tail.left)?;
    put_bytes(bytes, &tail.held)?;
    put_bytes(bytes, &tail.part)
}

/// Fills `key` with the code of what of a node's text isn't in order for good, and the class key of its machine's state. Fails where memory is
/// refused.
pub(crate) fn fill_tail_key(
    room: &mut SearchRoom<'_>,
    key: &mut Vec<u8>,
    node: &LooseNode<'_>,
    classes: &[u32],
) -> Result<(), AllocError>
    ensures { OnOk result (IsTailKey (class_in classes.now) node.now key.new.items) }
{
    room.parts.fill_key(&mut room.key, &node.machine, classes)?;
    key.clear();
    put_tail(key, &node.tail)?;
    key.extend_from_slice(&room.key)
}
