// The exports of `norrabist_c::lists`; made by ./papers --write.
ghost use Rattle.std.specs.Prelude.{◌≡◌};
ghost use Rattle.field.specs.Fields.{sized};
ghost use Rattle.list.specs.Items.{item_from, number_place};
ghost use Rattle.norrabist_c.specs.Lists.{item_told, number_told};

use norrabist_c::lists::{ItemTold, NumberTold};

// The certificate whose length stands at byte `at` of a chain; NoSuch where none fits.
#[unsafe(no_mangle)]
pub extern "C" fn norrabist_certificate_at(list: &[u8], at: usize) -> ItemTold
    ensures { result ≡ item_told (item_from (sized 3) list.now at) }
{
    norrabist_c::lists::norrabist_certificate_at(list, at)
}

// The name whose length stands at byte `at` of a CertificateRequest's names; NoSuch where none
// fits.
#[unsafe(no_mangle)]
pub extern "C" fn norrabist_name_at(list: &[u8], at: usize) -> ItemTold
    ensures { result ≡ item_told (item_from (sized 2) list.now at) }
{
    norrabist_c::lists::norrabist_name_at(list, at)
}

// The cipher, or the signature pair, at a place of its list, counted from 0; NoSuch past the last.
#[unsafe(no_mangle)]
pub extern "C" fn norrabist_number_at(list: &[u8], place: usize) -> NumberTold
    ensures { result ≡ number_told (number_place place 2 list.now) }
{
    norrabist_c::lists::norrabist_number_at(list, place)
}
