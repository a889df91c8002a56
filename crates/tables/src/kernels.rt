use crate::boards::{GIB_1, KIB_4, MIB_2, MIB_4, Place, Tables};
use paging::{FourLevel, Pae, TwoLevel};
use std::test::Fail;

// The layouts that Linux documents of its address spaces, with entries as they lie in memory. Each has the bits that it has
// there: 0x63 and 0x67 lead to a table of the kernel and of a program, 0x1e3 to a large page, 0x25 to a page that programs
// may read, and bit 63 forbids to run what lies there.

// x86-64: all memory from 0xffff_8880_0000_0000 on, the kernel from 0xffff_ffff_8000_0000 on, which is physical 0, the page
// vsyscall at 0xffff_ffff_ff60_0000, and a program's first page at 0x40_0000.
const X86_64: [(u64, [u8; 8]); 16] = [
    // indices 273 and 511 of the root, and 0 for the program
    (0x1888, *b"\x67\x20\0\0\0\0\0\0"),
    (0x1ff8, *b"\x67\x30\0\0\0\0\0\0"),
    (0x1000, *b"\x67\x70\0\0\0\0\0\0"),
    // pages of 1 GiB
    (0x2000, *b"\xe3\x01\0\0\0\0\0\x80"),
    (0x2008, *b"\xe3\x01\0\x40\0\0\0\x80"),
    (0x2020, *b"\xe3\x01\0\0\x01\0\0\x80"),
    // indices 510 and 511, and pages of 2 MiB
    (0x3ff0, *b"\x63\x40\0\0\0\0\0\0"),
    (0x3ff8, *b"\x67\x50\0\0\0\0\0\0"),
    (0x4000, *b"\xe3\x01\0\0\0\0\0\0"),
    (0x4040, *b"\xe3\x01\0\x01\0\0\0\0"),
    (0x4ff8, *b"\0\0\0\0\0\0\0\0"),
    // index 507
    (0x5fd8, *b"\x67\x60\0\0\0\0\0\0"),
    (0x6000, *b"\x25\x90\xe0\x01\0\0\0\x80"),
    // indices 0, 2 and 0
    (0x7000, *b"\x67\x80\0\0\0\0\0\0"),
    (0x8010, *b"\x67\x90\0\0\0\0\0\0"),
    (0x9000, *b"\x25\xb0\x34\x12\0\0\0\0"),
];

const X86_64_PLACES: [(u64, Place); 13] = [
    (0xffff_8880_0000_0000, Ok((0, GIB_1))),
    (0xffff_8880_000b_8000, Ok((0xb_8000, GIB_1))),
    (0xffff_8880_4000_1234, Ok((0x4000_1234, GIB_1))),
    // memory above 4 GiB
    (0xffff_8881_0000_0000, Ok((0x1_0000_0000, GIB_1))),
    (0xffff_ffff_8000_0000, Ok((0, MIB_2))),
    (0xffff_ffff_8100_0000, Ok((0x100_0000, MIB_2))),
    (0xffff_ffff_811f_ffff, Ok((0x11f_ffff, MIB_2))),
    (0xffff_ffff_ff60_0000, Ok((0x1e0_9000, KIB_4))),
    (0x40_0000, Ok((0x1234_b000, KIB_4))),
    // the end of the kernel's 1 GiB
    (0xffff_ffff_bfff_ffff, Err((0, 0xffff_ffff_bfff_ffff, 0x12))),
    // the first address of the upper half has index 256, and there is no such entry
    (0xffff_8000_0000_0000, Err((2, 0x1800, 0x77))),
    // the first and the last address of the hole between the halves
    (0x8000_0000_0000, Err((0, 0x8000_0000_0000, 0x04))),
    (0xffff_7fff_ffff_ffff, Err((0, 0xffff_7fff_ffff_ffff, 0x04))),
];

// i386: all memory from 0xc000_0000 on, and a program's first page at 0x804_8000, whose indices are 0x20 and 0x48.
const I386: [(u64, [u8; 4]); 4] = [
    // index 768
    (0x1c00, *b"\xe3\x01\0\0"),
    (0x1c04, *b"\xe3\x01\x40\0"),
    (0x1080, *b"\x67\x20\0\0"),
    (0x2120, *b"\x25\xb0\x34\x12"),
];

const I386_PLACES: [(u64, Place); 6] = [
    (0xc000_0000, Ok((0, MIB_4))),
    // the text screen, and the kernel
    (0xc00b_8000, Ok((0xb_8000, MIB_4))),
    (0xc010_0000, Ok((0x10_0000, MIB_4))),
    (0xc07f_ffff, Ok((0x7f_ffff, MIB_4))),
    (0x804_8000, Ok((0x1234_b000, KIB_4))),
    (0x804_8fff, Ok((0x1234_bfff, KIB_4))),
];

// The same with PAE: the kernel's directory is that of the last root entry, and the program's indices are 0, 0x40 and 0x48.
const I386_PAE: [(u64, [u8; 8]); 6] = [
    (0x1020, *b"\x01\x20\0\0\0\0\0\0"),
    (0x1038, *b"\x01\x30\0\0\0\0\0\0"),
    (0x3000, *b"\xe3\x01\0\0\0\0\0\0"),
    (0x3008, *b"\xe3\x01\x20\0\0\0\0\0"),
    (0x2200, *b"\x67\x40\0\0\0\0\0\0"),
    // above 4 GiB
    (0x4240, *b"\x25\xb0\x34\x12\x0f\0\0\x80"),
];

const I386_PAE_PLACES: [(u64, Place); 4] = [
    (0xc000_0000, Ok((0, MIB_2))),
    (0xc00b_8000, Ok((0xb_8000, MIB_2))),
    (0xc030_0000, Ok((0x30_0000, MIB_2))),
    (0x804_8000, Ok((0xf_1234_b000, KIB_4))),
];

#[test]
fn linux_in_each_scheme(rt: HostRuntime) -> Result<(), Fail> {
    let x86_64 = Tables::new(FourLevel, 0x1000, &X86_64);
    x86_64.lead(&rt, &X86_64_PLACES)?;
    let i386 = Tables::new(TwoLevel, 0x1000, &I386);
    i386.lead(&rt, &I386_PLACES)?;
    let i386_pae = Tables::new(Pae, 0x1020, &I386_PAE);
    i386_pae.lead(&rt, &I386_PAE_PLACES)?;
    Ok(())
}
