// Reads a stream of records from standard input and prints its page.
#![tactic(auto)]

ghost use Rattle.std.specs.Prelude.{◌≤◌, length};

use std::io::Read;

// The buffer holds more than the 60,000 bytes of the longest stream that has a page: what lies past it makes no difference. (Fixed buffers, each with its count
// beside it: no heap. `details` has a `main` like it, since each is a program's own.)
fn main(rt: HostRuntime) {
    let mut input = [0u8; 65_536];
    let n = read_whole(&mut rt.stdin(), &mut input);
    let mut out = [0u8; pages::LONGEST_PAGE];
    let Ok(k) = pages::write_page(&input[..n], &mut out) else {
        return;
    };
    // A write that fails ends the page there.
    if let Some(page) = out.get(..k) {
        let _ = rt.write_all(page);
    }
}

// Reads until the buffer is full, the input ends or a read fails, and answers how many bytes there are at its start. (`details` has it too: what a library
// answers follows from its arguments, and what is read does not. The library's own way to read to the end wants a heap.)
fn read_whole(from: &mut impl Read, into: &mut [u8]) -> usize
    ensures { result ≤ length into.new }
{
    let mut n = 0;
    while n < into.len() {
        match from.read(&mut into[n..]) {
            Ok(0) | Err(_) => break,
            Ok(more) => n += more,
        }
    }
    n
}
