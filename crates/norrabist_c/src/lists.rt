// The items of lists, one a call.
ghost use Rattle.std.specs.Prelude.{◌≡◌};
ghost use Rattle.field.specs.Fields.{sized};
ghost use Rattle.list.specs.Items.{item_from, number_place};
ghost use Rattle.norrabist_c.specs.Lists.{item_told, number_told};
ghost use Rattle.wire.specs.Numbers.{bytes_in};

use wire::number::Width;

// What is told of an item behind its length: where it begins in the list, and its length. The next
// one begins where it ends.
#[repr(C)]
#[derive(Clone, Copy, Default)]
pub struct ItemTold {
    pub start: usize,
    pub len: u32,
    pub number: u8,
}

// What is told of the item whose length, of that width, stands at byte `at` of a list.
fn item_told(list: &[u8], at: usize, w: Width) -> ItemTold
    ensures { result ≡ item_told (item_from (sized (bytes_in w)) list.now at) }
{
    match list::items::item_from(list, at, w) {
        Err(r) => ItemTold {
            number: refusal::refusal_number(r),
            ..Default::default()
        },
        Ok(p) => ItemTold {
            start: p.view.start,
            len: p.view.len as u32,
            number: 0,
        },
    }
}

// The certificate whose length stands at byte `at` of a chain; NoSuch where none fits.
#[unsafe(no_mangle)]
pub extern "C" fn norrabist_certificate_at(list: &[u8], at: usize) -> ItemTold
    ensures { result ≡ item_told (item_from (sized 3) list.now at) }
{
    item_told(list, at, Width::Three)
}

// The name whose length stands at byte `at` of a CertificateRequest's names; NoSuch where none
// fits.
#[unsafe(no_mangle)]
pub extern "C" fn norrabist_name_at(list: &[u8], at: usize) -> ItemTold
    ensures { result ≡ item_told (item_from (sized 2) list.now at) }
{
    item_told(list, at, Width::Two)
}

// What is told of an item that is a number of two bytes.
#[repr(C)]
#[derive(Clone, Copy, Default)]
pub struct NumberTold {
    pub value: u16,
    pub number: u8,
}

// The cipher, or the signature pair, at a place of its list, counted from 0; NoSuch past the last.
#[unsafe(no_mangle)]
pub extern "C" fn norrabist_number_at(list: &[u8], place: usize) -> NumberTold
    ensures { result ≡ number_told (number_place place 2 list.now) }
{
    match list::numbers::number_at(list, Width::Two, place) {
        Err(r) => NumberTold {
            number: refusal::refusal_number(r),
            ..Default::default()
        },
        Ok(n) => NumberTold {
            value: n.value as u16,
            number: 0,
        },
    }
}
