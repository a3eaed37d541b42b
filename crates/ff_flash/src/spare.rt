// The spare of a page, and its bytes.
ghost use Rattle.std.specs.Prelude.{◌≡◌, ◌≢◌, ◌↔◌, ◌<◌, ◌^◌, IfSome, IsNone, replicate, slice_range};
ghost use Rattle.ff_flash.specs.declared.spare.Spare.{Spare};
ghost use Rattle.ff_flash.specs.Spare.{spare_text};

use ff_base::PageNo;

/// What is written beside the bytes of a page: the logical page that they are of, and their version.
#[derive(Clone, Copy, Debug, PartialEq, Eq)]
pub struct Spare {
    pub page: PageNo,
    pub version: u64,
}

impl Spare {
    /// The 16 bytes as they are written.
    pub fn to_bytes(&self) -> [u8; 16]
        ensures { result ≡ spare_text self.now }
    {
        let [a, b, c, d] = self.page.0.to_be_bytes();
        let [e, f, g, h, i, j, k, l] = self.version.to_be_bytes();
        [a, b, c, d, 0, 0, 0, 0, e, f, g, h, i, j, k, l]
    }

    /// The spare that is written so, if one is: bytes 4 to 7 are zeros.
    pub fn from_bytes(bytes: &[u8; 16]) -> Option<Spare>
        ensures some { IfSome result (λ spare. bytes.now ≡ spare_text spare) }
        ensures only { (spare : Spare) → spare.page.0 < 2 ^ 32 → spare.version < 2 ^ 64
            → bytes.now ≡ spare_text spare → result ≡ Some spare }
        ensures none { IsNone result ↔ (slice_range bytes.now 4 8 ≢ replicate 4 0) }
    {
        let [a, b, c, d, 0, 0, 0, 0, e, f, g, h, i, j, k, l] = *bytes else {
            return None;
        };
        Some(Spare {
            page: PageNo(u32::from_be_bytes([a, b, c, d])),
            version: u64::from_be_bytes([e, f, g, h, i, j, k, l]),
        })
    }
}
