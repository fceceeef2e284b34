//! The field of a record that says where its name stands.
ghost use Rattle.std.specs.Prelude.{◌≡◌, ◌≤◌, length};
ghost use Rattle.mdmp_lister.specs.Format.Kind.{field_end, field_rva};

use mdmp_wire::get_at;

/// The field of a record that has the RVA of its name, by its offset in the record.
#[derive(Clone, Copy)]
pub(crate) enum NameField {
    /// It has 32 bits.
    Rva(u32),
    /// It has 64 bits.
    Rva64(u32),
}

impl NameField {
    /// What it has in the record of the first of these bytes.
    #[inline(always)]
    pub(crate) fn rva(self, bytes: &[u8]) -> u64
        requires { field_end self ≤ length bytes.now }
        ensures { result ≡ field_rva bytes.now self }
    {
        match self {
            NameField::Rva(at) => {
                let rva: u32 = get_at(bytes, at as usize);
                u64::from(rva)
            }
            NameField::Rva64(at) => get_at(bytes, at as usize),
        }
    }
}
