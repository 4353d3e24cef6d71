// The readings of a library's header. Beside bytes shorter than a header they are 9. (Each is named as in the source and called by C
// so; all are one call of `Record`.)
ghost use Rattle.std.specs.Prelude.{◌≡◌};
ghost use Rattle.records.specs.Answer.{map};
ghost use Rattle.records.specs.Record.{signed32, bits_of, flag_set};
ghost use Rattle.records.specs.Told.{told};
ghost use Rattle.typelib.specs.Header.{header_field, help_dll_flag, type_count};

use crate::TypeLib;
use records::answer::{Place, Refusal};
use records::field::Record;

// The header, the record at the start of the bytes.
#[derive(Clone, Copy)]
struct Header;

impl Record for Header {
    ghost place = { λ _. record { at = 0; len = 84 } };

    ghost FIXED = { 84 };

    const FIXED: usize = TypeLib::HEADER_SIZE;

    fn place(self) -> Place {
        Place {
            at: 0,
            len: TypeLib::HEADER_SIZE,
        }
    }
}

impl TypeLib {
    // The word behind the magic.
    pub fn format_version(self, s: &[u8]) -> Result<u32, Refusal>
        ensures { told result ≡ header_field "magic2" s.now }
    {
        Header.field(s, 0x04)
    }

    // The offset of the library's GUID in the GUID table.
    pub fn lib_guid_offset(self, s: &[u8]) -> Result<i32, Refusal>
        ensures { told result ≡ signed32 (header_field "posguid" s.now) }
    {
        Header.field(s, 0x08)
    }

    // The library's locale.
    pub fn lcid(self, s: &[u8]) -> Result<u32, Refusal>
        ensures { told result ≡ header_field "lcid" s.now }
    {
        Header.field(s, 0x0C)
    }

    pub fn lcid2(self, s: &[u8]) -> Result<u32, Refusal>
        ensures { told result ≡ header_field "lcid2" s.now }
    {
        Header.field(s, 0x10)
    }

    // SYSKIND in bits 0 to 3; bit 8 where a help DLL is named.
    pub fn varflags(self, s: &[u8]) -> Result<u32, Refusal>
        ensures { told result ≡ header_field "varflags" s.now }
    {
        Header.field(s, 0x14)
    }

    // SYSKIND: 0 Win16, 1 Win32, 2 Mac, 3 Win64.
    pub fn syskind(self, s: &[u8]) -> Result<u8, Refusal>
        ensures { told result ≡ map (bits_of 0 4) (header_field "varflags" s.now) }
    {
        Header.bits(s, 0x14, 0, 4)
    }

    pub fn has_help_dll(self, s: &[u8]) -> Result<bool, Refusal>
        ensures { told result ≡ map (flag_set help_dll_flag) (header_field "varflags" s.now) }
    {
        Header.flag(s, 0x14, 8)
    }

    // Major in the low half, minor in the high half.
    pub fn version(self, s: &[u8]) -> Result<u32, Refusal>
        ensures { told result ≡ header_field "version" s.now }
    {
        Header.field(s, 0x18)
    }

    pub fn version_major(self, s: &[u8]) -> Result<u16, Refusal>
        ensures { told result ≡ map (bits_of 0 16) (header_field "version" s.now) }
    {
        Header.bits(s, 0x18, 0, 16)
    }

    pub fn version_minor(self, s: &[u8]) -> Result<u16, Refusal>
        ensures { told result ≡ map (bits_of 16 16) (header_field "version" s.now) }
    {
        Header.bits(s, 0x18, 16, 16)
    }

    // LIBFLAG bits.
    pub fn flags(self, s: &[u8]) -> Result<u32, Refusal>
        ensures { told result ≡ header_field "flags" s.now }
    {
        Header.field(s, 0x1C)
    }

    // How many typeinfos the library has.
    pub fn typeinfo_count(self) -> usize
        ensures { result ≡ type_count self }
    {
        self.count() as usize
    }

    // The offset of its help string in the string table; -1 where it has none.
    pub fn helpstring_offset(self, s: &[u8]) -> Result<i32, Refusal>
        ensures { told result ≡ signed32 (header_field "helpstring" s.now) }
    {
        Header.field(s, 0x24)
    }

    pub fn helpstringcontext(self, s: &[u8]) -> Result<i32, Refusal>
        ensures { told result ≡ signed32 (header_field "helpstringcontext" s.now) }
    {
        Header.field(s, 0x28)
    }

    pub fn helpcontext(self, s: &[u8]) -> Result<i32, Refusal>
        ensures { told result ≡ signed32 (header_field "helpcontext" s.now) }
    {
        Header.field(s, 0x2C)
    }

    pub fn nametablecount(self, s: &[u8]) -> Result<i32, Refusal>
        ensures { told result ≡ signed32 (header_field "nametablecount" s.now) }
    {
        Header.field(s, 0x30)
    }

    pub fn nametablechars(self, s: &[u8]) -> Result<i32, Refusal>
        ensures { told result ≡ signed32 (header_field "nametablechars" s.now) }
    {
        Header.field(s, 0x34)
    }

    // The offset of its name in the name table.
    pub fn name_offset(self, s: &[u8]) -> Result<i32, Refusal>
        ensures { told result ≡ signed32 (header_field "NameOffset" s.now) }
    {
        Header.field(s, 0x38)
    }

    // The offset of its help file's name in the string table; -1 where it has none.
    pub fn helpfile_offset(self, s: &[u8]) -> Result<i32, Refusal>
        ensures { told result ≡ signed32 (header_field "helpfile" s.now) }
    {
        Header.field(s, 0x3C)
    }

    // The offset of its custom data in their directory; -1 where it has none.
    pub fn custom_data_offset(self, s: &[u8]) -> Result<i32, Refusal>
        ensures { told result ≡ signed32 (header_field "CustomDataOffset" s.now) }
    {
        Header.field(s, 0x40)
    }

    // The hreftype of IDispatch; -1 where there is none.
    pub fn dispatchpos(self, s: &[u8]) -> Result<i32, Refusal>
        ensures { told result ≡ signed32 (header_field "dispatchpos" s.now) }
    {
        Header.field(s, 0x4C)
    }

    // How many imports it has.
    pub fn nimpinfos(self, s: &[u8]) -> Result<i32, Refusal>
        ensures { told result ≡ signed32 (header_field "nimpinfos" s.now) }
    {
        Header.field(s, 0x50)
    }
}
