// Reading standard input part by part.
ghost use Rattle.std.specs.Prelude.{◌≡◌, ◌≤◌, IfErr, IfOk, length};
ghost use Rattle.held_stores.specs.Pair.{HoldsLengths, RefusesLengths};

use held_files::held::{MOST_SHEET, MOST_TREE};
use held_stores::held::Held;
use refusals::refusal::Refusal;
use std::io::Read;

// The input is not as long as it says.
#[derive(Clone, Copy)]
pub struct WrongInput;

// Reads until `part` is full, the input ends or a read fails; the front of `part` that it read. It counts by hand,
// since `read_exact` does not say how far it came.
pub fn read_full<'a>(rt: &impl Input, part: &'a mut [u8]) -> &'a [u8]
    ensures { length result.now ≤ length part.old }
{
    let mut reader = rt.reader();
    let mut done = 0;
    while done < part.len() {
        match reader.read(&mut part[done..]) {
            Ok(0) | Err(_) => break,
            Ok(count) => done += count,
        }
    }
    &part[..done]
}

// Reads a part to its end.
pub fn read_part(rt: &impl Input, part: &mut [u8]) -> Result<(), WrongInput> {
    rt.reader().read_exact(part).map_err(|_| WrongInput)
}

// Reads a head of N bytes. No clause: none can speak of what comes.
pub fn read_head<const N: usize>(rt: &impl Input) -> Result<[u8; N], WrongInput> {
    let mut head = [0; N];
    read_part(rt, &mut head)?;
    Ok(head)
}

// Reads a file of that many bytes to the front of the room.
pub fn read_file<'a>(
    rt: &impl Input,
    bytes: usize,
    room: &'a mut [u8],
) -> Result<&'a [u8], WrongInput>
    ensures { IfOk result (λ file. length file.now ≡ bytes) }
{
    let file = room.get_mut(..bytes).ok_or(WrongInput)?;
    read_part(rt, file)?;
    Ok(file)
}

// Finds the input at its end. No clause either.
pub fn read_end(rt: &impl Input) -> Result<(), WrongInput> {
    if !read_full(rt, &mut [0]).is_empty() {
        return Err(WrongInput);
    }
    Ok(())
}

// Reads a tree file and an opinion sheet, and hands both in. A refusal stands apart, since what follows may be wrong
// too.
pub fn read_pair(
    rt: &impl Input,
    tree_len: usize,
    sheet_len: usize,
) -> Result<Result<Held, Refusal>, WrongInput>
    ensures held { IfOk result (λ pair. IfOk pair (λ held. HoldsLengths held tree_len sheet_len)) }
    ensures refused { IfOk result (λ pair. IfErr pair (λ refusal. RefusesLengths refusal tree_len sheet_len)) }
{
    // A sheet too long is refused before the tree is read: its writer may wait for the answer before it sends a byte.
    if sheet_len > MOST_SHEET {
        return Err(WrongInput);
    }
    let mut tree = [0; MOST_TREE];
    let mut sheet = [0; MOST_SHEET];
    let tree = read_file(rt, tree_len, &mut tree)?;
    let sheet = read_file(rt, sheet_len, &mut sheet)?;
    Ok(Held::pair(tree, sheet))
}
