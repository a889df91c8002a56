ghost use Rattle.std.specs.Prelude.{◌≡◌};
ghost use Rattle.carts.specs.Carts.{counted, loaded, image_of, layered, unless_refused, cart_in};
ghost use Rattle.carts.specs.Meant.{meant};

use crate::root::cr3_in;
use extents::Table;
use images::{Image, LimeRange, LoadRefusal, load_lime};
use overlays::Overlay;
use paging::{FourLevel, Paging};
use spaces::Space;

// The layers of a cart on any bottom, from the top: an overlay, four-level paging, an overlay.
pub type CartOn<B> = Overlay<Paging<FourLevel, Overlay<B>>>;

// A stopped cart: its layers on the image of its dump.
pub type Cart<'t, 'f> = CartOn<Image<'t, 'f, LimeRange>>;

// How many ranges a dump may have.
pub const RANGES: usize = 64;

// How many of its bytes count.
pub const DUMP: usize = 65_536;

// The bytes of a dump that count.
#[tactic(auto, using(std::proofs::lemmas::List::take_min))]
fn counted(dump: &[u8]) -> &[u8]
    ensures { result.now ≡ counted dump.now }
{
    &dump[..DUMP.min(dump.len())]
}

// The image of a dump, or why it is refused.
fn load_image<'t, 'f>(
    dump: &'f [u8],
    memory: &'t mut [LimeRange; RANGES],
) -> Result<Image<'t, 'f, LimeRange>, LoadRefusal>
    ensures { meant ⟦<Image<'t, 'f, LimeRange> as Space>⟧.meaning result ≡ unless_refused (loaded dump.now).refused (image_of dump.now) }
{
    let file = counted(dump);
    let mut table = Table::new(memory);
    load_lime(file, &mut table).map_err(|not| not.refusal)?;
    Ok(Image::new(table, file))
}

// The layers of a cart on a bottom, with its CR3.
pub fn layer<B: Space>(bottom: B, cr3: u64) -> CartOn<B>
    ensures { ⟦<CartOn<B> as Space>⟧.meaning result ≡ layered cr3 (B.Space.meaning bottom) }
{
    Overlay::new(Paging::new(FourLevel, cr3, Overlay::new(bottom)))
}

// The cart whose memory is in a dump and whose CR3 is in a root file, or why the dump is refused. The memory is for the
// ranges of the dump.
pub fn load_cart<'t, 'f>(
    dump: &'f [u8],
    root: &[u8],
    memory: &'t mut [LimeRange; RANGES],
) -> Result<Cart<'t, 'f>, LoadRefusal>
    ensures { meant ⟦<Cart<'t, 'f> as Space>⟧.meaning result ≡ cart_in dump.now root.now }
{
    let image = load_image(dump, memory)?;
    Ok(layer(image, cr3_in(root)))
}
