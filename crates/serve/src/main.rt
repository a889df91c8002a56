// Serves the cart whose files lie where this is run to GDB, over standard input and output. With the argument `--known-pc` the
// program counter is told as 0.
#![tactic(auto)]

use carts::{DUMP, RANGES, ROOT, load_cart};
use images::LimeRange;
use serving::serve;
use std::env;
use std::fs::File;
use std::io::{self, BufWriter, Read};

fn main(rt: HostRuntime) -> io::Result<()> {
    let dump = front(&rt, "image.lime", DUMP)?;
    let root = front(&rt, "root.bin", ROOT)?;
    let known_pc = env::args(&rt)?.any(|argument| argument.as_str() == "--known-pc");
    let mut memory = [LimeRange::default(); RANGES];
    match load_cart(&dump, &root, &mut memory) {
        Ok(cart) => {
            // what is due for a packet, its `+` and its reply, is written out by one call
            let mut output = BufWriter::new(rt.alloc(), rt.stdout())?;
            serve(cart, known_pc, &mut rt.stdin(), &mut output).1
        }
        Err(refusal) => println!(rt; "refused {refusal}"),
    }
}

// So many bytes of a file at the most. A file that cannot be opened is an empty one.
fn front(rt: &HostRuntime, name: &str, most: usize) -> io::Result<Vec<u8>> {
    let mut bytes = Vec::new(rt.alloc());
    if let Ok(file) = File::open(rt, name) {
        file.take(most as u64).read_to_end(&mut bytes)?;
    }
    Ok(bytes)
}
