// Reads a stream of records from standard input and prints its table: every reading, on the grid, with its water.
#![tactic(auto)]

ghost use Rattle.std.specs.Prelude.{◌≤◌, length};

use std::io::Read;

// The buffer holds more than the 60,000 bytes of the longest stream that has a table: what lies past it makes no difference. (Fixed buffers, as in `sheet`.)
fn main(rt: HostRuntime) {
    let mut input = [0u8; 65_536];
    let n = read_whole(&mut rt.stdin(), &mut input);
    let mut out = [0u8; tables::TABLE_ROOM];
    print(&rt, &input[..n], &mut out);
}

// A function of its own, over the array by reference: of one of this size in `main` the check runs out of stack at the slice.
fn print(rt: &impl Print, stream: &[u8], out: &mut [u8; tables::TABLE_ROOM]) {
    let Ok(k) = tables::write_table(stream, out) else {
        return;
    };
    // A write that fails ends the table there.
    if let Some(table) = out.get(..k) {
        let _ = rt.write_all(table);
    }
}

// Reads until the buffer is full, the input ends or a read fails, and answers how many bytes there are at its start. (`sheet` has it too, and says why.)
fn read_whole(from: &mut impl Read, into: &mut [u8]) -> usize
    ensures { result ≤ length into.new }
{
    let mut n = 0;
    while n < into.len() {
        match from.read(&mut into[n..]) {
            Ok(0) | Err(_) => break,
            Ok(more) => n += more,
        }
    }
    n
}
