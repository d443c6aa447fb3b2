// The program of 01's "Checked examples": hex lines in, one contact command each, on a fixed card; a line out for each.
// Lines end at LF; a last line without LF is a line; nothing comes after a final LF. What a line comes to is in hexlines.
// A read or a write that fails ends the program with the error of the system.

#![tactic(auto)]

mod hexlines;

use feed::Feed;
use std::io;

fn main(rt: HostRuntime) -> io::Result<()> {
    let mut store = [0u8; 33400];
    let mut work = [0u8; 13321];
    let mut resp = [0u8; 258];
    let mut line = [0u8; 1024];
    issued::fixed_card(&mut store);
    let mut session = card::power_on(&store, &mut work, false).session;
    let mut feed = Feed::new(rt.stdin());
    // Nothing says that the lines end, and a proved loop does: no run takes so many turns. probe has its like: a closure for the turn would hold
    // the buffers, and is no plainer.
    for _ in 0..u64::MAX {
        let Some(n) = feed.next(&mut line)? else {
            break;
        };
        let mut out = [0u8; 1024];
        let said = hexlines::answer(
            session,
            &mut store,
            &mut work,
            &mut resp,
            &line[..n],
            &mut out,
        );
        rt.write_all(lines::first(&out, said.len))?;
        session = said.session;
    }
    Ok(())
}
