//! Numbers of a fixed width, the highest byte first.
ghost use Rattle.std.specs.Prelude.{◌≡◌, ◌++◌, OnOk, OnErr};
ghost use Rattle.hb_wire.specs.Fixed.{be_bytes};

use crate::{Blob, NoMemory};
use byteorder::{BigEndian, ByteOrder};

/// Adds a number of two bytes at the end. Without memory for it nothing changes.
#[tactic(auto, unfolding(crate::specs::Fixed::be_bytes))]
pub fn put_u16(out: &mut Blob, number: u16) -> Result<(), NoMemory>
    ensures ok { OnOk result (out.new ≡ out.old ++ be_bytes 2 number) }
    ensures err { OnErr result (out.new ≡ out.old) }
{
    let mut bytes = [0; 2];
    BigEndian::write_u16(&mut bytes, number);
    out.add(&bytes)
}

/// Adds a number of four bytes at the end. Without memory for it nothing changes.
#[tactic(auto, unfolding(crate::specs::Fixed::be_bytes))]
pub fn put_u32(out: &mut Blob, number: u32) -> Result<(), NoMemory>
    ensures ok { OnOk result (out.new ≡ out.old ++ be_bytes 4 number) }
    ensures err { OnErr result (out.new ≡ out.old) }
{
    let mut bytes = [0; 4];
    BigEndian::write_u32(&mut bytes, number);
    out.add(&bytes)
}

/// Adds a number of eight bytes at the end. Without memory for it nothing changes.
#[tactic(auto, unfolding(crate::specs::Fixed::be_bytes))]
pub fn put_u64(out: &mut Blob, number: u64) -> Result<(), NoMemory>
    ensures ok { OnOk result (out.new ≡ out.old ++ be_bytes 8 number) }
    ensures err { OnErr result (out.new ≡ out.old) }
{
    let mut bytes = [0; 8];
    BigEndian::write_u64(&mut bytes, number);
    out.add(&bytes)
}
