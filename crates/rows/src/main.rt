// The row program: for each row of standard input, its answer and a line end on standard output, in constant memory.
#![tactic(auto)]

use row::block::{BLOCK, Begun, ROOM, answer_block, answer_last};
use std::io;
use std::io::{Read, Write};

// All blocks, each answered before the next is read. A proved loop has to end: this one has more turns than any input has blocks.
fn answer_blocks<R: Read, W: Write>(
    from: &mut R,
    to: &mut W,
    begun: &mut Begun,
    out: &mut [u8; ROOM],
) -> io::Result<()> {
    let mut block = [0u8; BLOCK];
    for _ in 0..u64::MAX {
        let n = from.read(&mut block)?;
        if n == 0 {
            break;
        }
        let end = answer_block(begun, &block[..n], out);
        to.write_all(&out[..end])?;
    }
    Ok(())
}

fn main(rt: HostRuntime) -> io::Result<()> {
    let mut begun = Begun::new();
    let mut out = [0u8; ROOM];
    let mut to = rt.stdout();
    answer_blocks(&mut rt.stdin(), &mut to, &mut begun, &mut out)?;
    let end = answer_last(&begun, &mut out);
    to.write_all(&out[..end])
}
