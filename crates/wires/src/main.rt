// Reads a page text on standard input, and prints its wires.
#![tactic(auto)]

use std::io;
use std::io::Write;

fn main(rt: HostRuntime) -> io::Result<()> {
    let mut text: [u8; page_listing::TEXT] = [0; page_listing::TEXT];
    let n = vector_list::read_list(&mut rt.stdin(), &mut text)?;
    let mut out: [u8; page_listing::ROOM] = [0; page_listing::ROOM];
    let m = page_listing::list_wires(&text, n, &mut out);
    rt.stdout().write_all(&out[..m])
}
