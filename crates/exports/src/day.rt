ghost use Rattle.std.specs.Prelude.{IfOk, IfErr};
ghost use Rattle.images.specs.Refusals.{load_refusal_number};
ghost use Rattle.carts.specs.Carts.{cart_in};
ghost use Rattle.exports.specs.Tellings.{refused};
ghost use Rattle.exports.specs.Days.{IsServed, IsSent, TellsOnly, TellsUnlessItBreaksOff};

use crate::sent::Sent;
use crate::told::Told;
use carts::{RANGES, load_cart};
use images::LimeRange;
use patchfiles::{Stopped, apply};
use serving::serve;
use spaces::Space;
use std::io::{self, Write};

// Serves a stream over a space, applies a patch file to it, and serves a second stream by a new session.
fn serve_day<S: Space + Drop, W: Write>(
    space: S,
    before: &[u8],
    file: &[u8],
    after: &[u8],
    output: &mut W,
) -> io::Result<Result<usize, Stopped>>
    ensures { IfOk result (λ applied. IsServed (S.Space.meaning space) before.now file.now after.now (W.contents output.old) (W.contents output.new) applied) }
{
    let mut stream = before;
    let (mut space, served) = serve(space, false, &mut stream, output);
    served?;
    let applied = apply(&mut space, file);
    let mut stream = after;
    let (_, served) = serve(space, false, &mut stream, output);
    served?;
    Ok(applied)
}

// The same with all that is sent in front of a buffer, and how many bytes that is.
fn send_day<S: Space + Drop>(
    space: S,
    before: &[u8],
    file: &[u8],
    after: &[u8],
    buffer: &mut [u8],
) -> io::Result<(Result<usize, Stopped>, usize)>
    ensures { IfOk result (λ r. IsSent (S.Space.meaning space) before.now file.now after.now buffer.old buffer.new r.0 r.1) }
{
    let mut sent = Sent::new(buffer);
    let applied = serve_day(space, before, file, after, &mut sent)?;
    Ok((applied, sent.count()))
}

// The same with zeros behind it, and what is told.
fn tell_day<S: Space + Drop>(
    space: S,
    before: &[u8],
    file: &[u8],
    after: &[u8],
    sent: &mut [u8],
) -> Told
    ensures { TellsUnlessItBreaksOff result sent.old sent.new (S.Space.meaning space) before.now file.now after.now }
{
    match send_day(space, before, file, after, sent) {
        Ok((applied, count)) => {
            sent[count..].fill(0);
            match applied {
                Ok(records) => Told::done(records, count),
                Err(stopped) => Told::refused(stopped.refusal, stopped.index, count),
            }
        }
        Err(_) => {
            sent.fill(0);
            Told::broke_off()
        }
    }
}

// A day with the cart of a dump and a root file. All bytes that are sent lie in front of the buffer, and zeros behind them. Tells
// the refusal of the patch file with the record's index or the number of records, and how many bytes were sent; or the refusal
// of the dump; or, where what is sent does not fit, that serving broke off.
#[unsafe(no_mangle)]
pub extern "C" fn aisle_serve(
    dump: &[u8],
    root: &[u8],
    before: &[u8],
    file: &[u8],
    after: &[u8],
    sent: &mut [u8],
    told: &mut Told,
)
    ensures refused_dump { IfErr (cart_in dump.now root.now)
        (λ r. TellsOnly told.new sent.old sent.new (refused (load_refusal_number r) 0 0)) }
    ensures unless_it_breaks_off { IfOk (cart_in dump.now root.now) (λ cart. TellsUnlessItBreaksOff told.new sent.old sent.new cart before.now file.now after.now) }
{
    let mut memory = [LimeRange::default(); RANGES];
    *told = match load_cart(dump, root, &mut memory) {
        Ok(cart) => tell_day(cart, before, file, after, sent),
        Err(refusal) => {
            sent.fill(0);
            Told::refused(refusal, 0, 0)
        }
    };
}
