ghost use Rattle.std.specs.Prelude.{⊤};
ghost use Rattle.std.specs.FinMap as map;

use rv_isa::{AccessFault, GuestMemory};

/// The first four bytes of a page that may be read and written. It is short of memory for every access of
/// that page but those of its first one, two or four bytes, and no other page is there.
#[derive(Clone, Copy)]
pub struct FourBytes {
    pub bytes: [u8; 4],
}

impl GuestMemory for FourBytes {
    ghost memory = { λ s. map.insert map.empty 0 (record { rights = 6; page = s.bytes }) };

    ghost may_want = { λ s. ⊤ };

    fn load(&self, address: u32, size: u32) -> Result<u32, AccessFault> {
        if address >= 4096 {
            return Err(AccessFault::Fault);
        }
        let [first, second, third, fourth] = self.bytes;
        match (address, size) {
            (0, 1) => Ok(first as u32),
            (0, 2) => Ok(first as u32 + 256 * second as u32),
            (0, 4) => {
                let high = third as u32 + 256 * fourth as u32;
                Ok(first as u32 + 256 * (second as u32 + 256 * high))
            }
            _ => Err(AccessFault::Memory),
        }
    }

    fn store(&mut self, address: u32, size: u32, value: u32) -> Result<(), AccessFault> {
        if address >= 4096 {
            return Err(AccessFault::Fault);
        }
        let low = value / 256;
        let high = low / 256;
        match (address, size) {
            (0, 1) => {
                self.bytes[0] = (value % 256) as u8;
                Ok(())
            }
            (0, 2) => {
                self.bytes[0] = (value % 256) as u8;
                self.bytes[1] = (low % 256) as u8;
                Ok(())
            }
            (0, 4) => {
                self.bytes[0] = (value % 256) as u8;
                self.bytes[1] = (low % 256) as u8;
                self.bytes[2] = (high % 256) as u8;
                self.bytes[3] = (high / 256 % 256) as u8;
                Ok(())
            }
            _ => Err(AccessFault::Memory),
        }
    }
}
