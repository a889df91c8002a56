use crate::served::counting;
use serving::Server;
use spaces::Space;
use std::process::Abort;

// Of these bytes so many are used, and this is sent.
fn listens<S: Space>(
    rt: &(impl Abort + AllocGlobal),
    server: &mut Server<S>,
    received: &[u8],
    used: usize,
    sent: &[u8],
) {
    let mut output = Vec::new(rt.alloc());
    let result = server.listen(received, &mut output);
    let right = result.is_ok_and(|count| count == used) && output.as_slice() == sent;
    assert!(rt; right, "{received:?} {output:?}");
}

// An unfinished frame is not used, and is to be given again with what comes behind it.
#[test]
fn pieces_in_hand(rt: HostRuntime) {
    let mut server = Server::new(counting(16), false);
    listens(&rt, &mut server, b"", 0, b"");
    listens(&rt, &mut server, b"-+", 2, b"");
    listens(&rt, &mut server, b"+$M0,1:ff#e0$m0,", 12, b"+$OK#9a");
    listens(&rt, &mut server, b"$m0,2#f", 0, b"");
    listens(&rt, &mut server, b"$m0,2#fb$", 8, b"+$ff01#2d");
    listens(&rt, &mut server, b"-$?#40$", 6, b"$ff01#2d-");
    let _ = server.close();
}
