use crate::dumps::fault;
use extents::Table;
use images::{Image, LoadRefusal, NotLoaded, RawExtent, load_raw};
use spaces::{EditRefusal, Space};

#[test]
fn a_raw_file(rt: HostRuntime) {
    let mut memory = [RawExtent::default(); 1];
    let mut table = Table::new(&mut memory);
    assert!(rt; load_raw(b"cart", &mut table) == Ok(1));
    let mut image = Image::new(table, b"cart");
    assert!(rt; image.byte(0) == Ok(b'c'));
    assert!(rt; image.byte(3) == Ok(b't'));
    assert!(rt; image.byte(4) == fault(4, 1));
    assert!(rt; image.set(0, 0, b"x") == Err(EditRefusal::NoOverlay));
    assert!(rt; image.set(9, u64::MAX, b"xy") == Err(EditRefusal::PastTheEnd));
    assert!(rt; image.clear(0, u64::MAX, 1) == Err(EditRefusal::NoOverlay));
    assert!(rt; image.clear(0, 2, u64::MAX) == Err(EditRefusal::PastTheEnd));
    assert!(rt; image.byte(0) == Ok(b'c'));
}

#[test]
fn an_empty_raw_file(rt: HostRuntime) {
    let mut memory = [RawExtent::default(); 0];
    let mut table = Table::new(&mut memory);
    assert!(rt; load_raw(b"", &mut table) == Ok(0));
    let full = Err(NotLoaded {
        refusal: LoadRefusal::TableFull,
        place: 0,
        written: 0,
    });
    assert!(rt; load_raw(b"x", &mut table) == full);
}

#[test]
fn a_fill_stops_at_the_end(rt: HostRuntime) {
    let mut memory = [RawExtent::default(); 1];
    let mut table = Table::new(&mut memory);
    assert!(rt; load_raw(b"cart", &mut table) == Ok(1));
    let image = Image::new(table, b"cart");
    let mut out = *b"......";
    let (count, fault) = image.fill(1, &mut out);
    assert!(rt; count == 3);
    assert!(rt; fault.is_some());
    assert!(rt; out == *b"art...");
    let (count, fault) = image.fill(u64::MAX, &mut out);
    assert!(rt; count == 0);
    assert!(rt; fault.is_some());
    let (count, fault) = image.fill(0, &mut out[0..4]);
    assert!(rt; count == 4);
    assert!(rt; fault.is_none());
    assert!(rt; out == *b"cart..");
}
