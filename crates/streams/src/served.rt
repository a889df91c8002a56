use crate::peers::Pieces;
use outsiders::Ramp;
use overlays::Overlay;
use serving::serve;
use spaces::Space;
use std::io::{self, Read, Write};
use std::process::Abort;

// An overlay over bytes that count up from 0.
pub(crate) fn counting(length: u64) -> Overlay<Ramp> {
    Overlay::new(Ramp { length })
}

// Serves an input to its end or to the first failure, and gives the space back. No other function of these tests calls
// `serve`.
pub(crate) fn outcome<S: Space, R: Read + Drop, W: Write>(
    space: S,
    known_pc: bool,
    input: R,
    output: &mut W,
) -> (S, io::Result<()>) {
    let mut input = input;
    serve(space, known_pc, &mut input, output)
}

// What is sent over a space for an input that ends.
pub(crate) fn sent<S: Space + Drop, R: Read + Drop>(
    rt: &(impl Abort + AllocGlobal),
    space: S,
    known_pc: bool,
    input: R,
) -> Vec<u8> {
    let mut output = Vec::new(rt.alloc());
    let (_, result) = outcome(space, known_pc, input, &mut output);
    assert!(rt; result.is_ok());
    output
}

pub(crate) fn sends<S: Space + Drop, R: Read + Drop>(
    rt: &(impl Abort + AllocGlobal),
    space: S,
    input: R,
    expected: &[u8],
) {
    let output = sent(rt, space, false, input);
    assert!(rt; output.as_slice() == expected, "{output:?}");
}

// The same for a stream at once and in pieces of these sizes, over sixteen bytes that count up.
pub(crate) fn stream_sends(
    rt: &(impl Abort + AllocGlobal),
    stream: &[u8],
    sizes: &[usize],
    expected: &[u8],
) {
    sends(rt, counting(16), stream, expected);
    for size in sizes {
        let pieces = Pieces {
            rest: stream,
            size: *size,
            interrupted: false,
        };
        sends(rt, counting(16), pieces, expected);
    }
}

// Streams, each with what is sent for it.
pub(crate) fn streams_send(rt: &(impl Abort + AllocGlobal), cases: &[(&str, &str)]) {
    for (stream, expected) in cases {
        let stream = stream.as_bytes();
        stream_sends(rt, stream, &[1, 2, 3, 5, 64], expected.as_bytes());
    }
}
