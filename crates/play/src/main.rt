// Plays a written run (R15.1): standard input to standard output, in constant memory (R15.11).
//
// What is printed for an input is what crates/run promises; here bytes are read and written.
#![tactic(auto)]

use nodes::RECORDS_SPACE;
use run::{CHUNK, OUT_SPACE};
use stages::LINE_SPACE;
use std::io::Read;

// A proved loop has to end, and nothing says that an input does. So the loop counts its reads, up to a number
// that no run uses up: at a billion a second this takes 584 years.
fn main(rt: HostRuntime) {
    let mut input = rt.stdin();
    let mut chunk = [0u8; CHUNK];
    let mut line = [0u8; LINE_SPACE];
    let mut records = [0u8; RECORDS_SPACE];
    let mut out = [0u8; OUT_SPACE];
    let mut run = run::start();
    for _ in 0..u64::MAX {
        let Ok(n) = input.read(&mut chunk) else {
            let _ = eprintln!(rt; "play: reading failed");
            return;
        };
        if n == 0 {
            let len = run::finish(run, &line, &mut records, &mut out);
            print(&rt, &out[..len]);
            return;
        }
        // All n bytes are used: the buffer has room for no more than CHUNK.
        let fed = run::feed(run, &chunk[..n], &mut line, &mut records, &mut out);
        run = fed.run;
        if !print(&rt, &out[..fed.len]) {
            return;
        }
    }
}

// Whether all was written.
fn print(rt: &(impl Print + Eprint), text: &[u8]) -> bool {
    if rt.write_all(text).is_ok() {
        return true;
    }
    let _ = eprintln!(rt; "play: writing failed");
    false
}
