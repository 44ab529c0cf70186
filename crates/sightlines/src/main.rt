// Shows sightlines at work: a box from x = 100 units is padded to 90, an anchor stands at 0, and each coordinate to its right is told to be clear
// or blocked.
#![tactic(auto)]

use fixed::PaddedBox;
use sightline::Line;
use std::io;

// The origin of both axes.
const ORIGIN: u32 = 2147483648;

// Writes each of the coordinates in steps, and whether it is clear.
fn show(rt: &impl Print, boxes: &[PaddedBox], coords: &[u32]) -> io::Result<()> {
    let line = Line::level(boxes, ORIGIN, 1);
    for x in coords {
        let clear = line.clear(ORIGIN, *x);
        let word = if clear { "clear" } else { "blocked" };
        println!(rt; "{}\t{word}", fixed::down(*x))?;
    }
    Ok(())
}

fn main(rt: HostRuntime) -> io::Result<()> {
    let rows = [1u32, 2147509248, 2147483648, 2147514368, 2147488768];
    let mut boxes = [PaddedBox::BLANK; 1];
    sightline::pad_boxes(&mut boxes, &rows);
    let coords = [ORIGIN + 256, ORIGIN + 23039, ORIGIN + 23040, ORIGIN + 30000];
    show(&rt, &boxes, &coords)
}
