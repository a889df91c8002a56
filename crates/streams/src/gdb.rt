use crate::cart::DUMP;
use crate::registers::known_frame;
use crate::served::sent;
use carts::{RANGES, load_cart};
use images::LimeRange;
use std::test::Fail;

// What GDB 13.1 sent to a script that frames and sums by itself and knows four bytes at 0xffc: GDB connects, reads the four
// bytes, then four from 0xffe on, and detaches. The first reply to a read was spoiled on its way, so GDB asked for it again
// by `-`.
const ASKED: &[u8; 430] = b"\
    +$qSupported:multiprocess+;swbreak+;hwbreak+;qRelocInsn+;fork-events+;vfork-events+;exec-events+;\
    vContSupported+;QThreadEvents+;no-resumed+;memory-tagging+;xmlRegisters=i386#77\
    +$vMustReplyEmpty#3a+$Hg0#df+$qTStatus#49+$?#3f+$qfThreadInfo#bb+$qL1200000000000000000#50\
    +$Hc-1#09+$qC#b4+$qAttached#8f+$g#67+$qL1200000000000000000#50\
    +$m0,1#fa-+$m0,1#fa+$m0,9#02\
    +$mffc,1#f9+$mffd,1#fa+$mffe,1#fb+$mfff,1#fc+$mffe,4#fe+$m1000,2#8c+$D#44+";

// What that script sent, and GDB accepted, before and behind the registers. Only the number in the error of the next page is
// the cart's.
const BEFORE: &[u8] = b"+$PacketSize=1000#f1+$#00+$OK#9a+$#00+$S05#b8+$#00+$#00+$OK#9a+$#00+$#00+";

const BEHIND: &[u8] = b"+$#00+$E01#a6$E01#a6+$E01#a6+$E01#a6\
    +$41#65+$42#66+$43#67+$44#68+$4344#cf+$E11#a7+$OK#9a";

#[test]
fn a_session_of_gdb(rt: HostRuntime) -> Result<(), Fail> {
    let mut memory = [LimeRange::default(); RANGES];
    let cart = load_cart(&DUMP, b"\0\x10", &mut memory)?;
    let output = sent(&rt, cart, true, ASKED.as_slice());
    let rest = output
        .strip_prefix(BEFORE)
        .and_then(|sent| sent.strip_prefix(&known_frame()))
        .and_then(|sent| sent.strip_prefix(BEHIND));
    assert!(rt; rest == Some(b""), "{output:?}");
    Ok(())
}
