// An extension block (RULES 11): how many extensions it has, the one at a place, and the walk over
// them. A block is lent as its own bytes, without its length. Of a damaged block nothing is handed
// out but the index of its first bad item.
#![tactic(auto)]

ghost use Rattle.std.specs.Prelude.{◌≡◌, ℕ, ◌+◌, ◌^◌, ◌<◌, ◌≤◌, length};
ghost use Rattle.list.specs.Items.{place, or_no_such};
ghost use Rattle.list.specs.Stepping.{MovesOn};
ghost use Rattle.list.specs.Tagged.{fit_at};
ghost use Rattle.field.specs.Standing.{place_of};
ghost use Rattle.read_ext.specs.Kinds.{fits, kind_of};
ghost use Rattle.refusal.specs.Answers.{giving, as_answer};
ghost use Rattle.refusal.specs.Refusals.{refusal};
ghost use Rattle.refusal.specs.declared.Reason.TheVariants.{LengthValue};
ghost use Rattle.wire.specs.Numbers.{bytes_in};
ghost use Rattle.read_ext.specs.Extensions.{reach_in, extension_from, extension_of, extension_place, extension_says, extensions, extensions_says, items_of, past_item, number_there, opened, opened_from};
ghost use Rattle.read_ext.specs.declared.NotHad.TheVariants.{Damaged};

use field::RuleName;
use list::steps::{self, Counted, Step};
use list::tagged::Tagged;
use refusal::{Reason, Refusal};
use wire::number::Width;
use wire::view::View;

pub mod names;

// An extension. Views are of the block: of server names and groups the list without its length, of
// another type the data.
#[derive(Clone, Copy)]
pub enum TlsExtension {
    SNI(View),
    MaxFragmentLength(u8),
    EllipticCurves(View),
    Unknown(u16, View),
}

// An extension that was found: its type, where its content lies, the place past it, and itself. The
// content of server names and groups is the list, that of a fragment length its byte.
// stays: the type is the number that came, any of two bytes, as C is told it.
#[derive(Clone, Copy)]
pub struct TlsExtensionFound {
    pub ext_type: u16,
    pub content: View,
    pub next: usize,
    pub extension: TlsExtension,
}

// Why a block is refused: the index of the first item that cannot be had, from 0, and the refusal.
#[derive(Clone, Copy)]
pub struct Damage {
    pub index: usize,
    pub refusal: Refusal,
}

// Why an extension is not handed out: its block is damaged, or there is none at the place.
#[derive(Clone, Copy)]
pub enum NotHad {
    Damaged(Damage),
    Refused(Refusal),
}

impl From<Damage> for NotHad {
    ghost from_gives = { λ d e. e ≡ Damaged d };

    fn from(damage: Damage) -> NotHad {
        NotHad::Damaged(damage)
    }
}

// Whether the data is a list of names behind its length.
fn are_names(data: &[u8]) -> bool
    ensures { result ≡ fits 0 «data».now }
{
    let amiss = refusal::refuse(Reason::LengthValue, 0, 0);
    let list = field::closing_data(data, 0, Width::Two, RuleName::Plain, amiss);
    list.is_ok_and(|p| names::fill(wire::view::part_of(data, p.view)))
}

// Whether the data is a list of groups behind its length.
fn are_groups(data: &[u8]) -> bool
    ensures { result ≡ fits 10 «data».now }
{
    let amiss = refusal::refuse(Reason::LengthValue, 0, 0);
    field::closing_data(data, 0, Width::Two, RuleName::Ciphers, amiss).is_ok()
}

// Whether the data is that of an extension of the type; a type that is not opened takes any.
fn is_of(ext_type: usize, data: &[u8]) -> bool
    ensures { result ≡ fits ext_type «data».now }
{
    match ext_type {
        registry::extension::SERVER_NAME => are_names(data),
        registry::extension::MAX_FRAGMENT_LENGTH => data.len() == 1,
        registry::extension::SUPPORTED_GROUPS => are_groups(data),
        _ => true,
    }
}

// The item that begins at `at`, where its data is of its kind; NoSuch where none does.
fn item_from(block: &[u8], at: usize) -> Result<Tagged, Refusal>
    ensures { as_answer result ≡ or_no_such (fit_at 2 fits block.now at) }
{
    match list::tagged::tagged_from(block, at, Width::Two) {
        Ok(x) if is_of(x.tag, wire::view::part_of(block, x.view)) => Ok(x),
        _ => Err(refusal::refuse(Reason::NoSuch, 0, 0)),
    }
}

// The walk over the items of a block, one each step.
#[derive(Clone, Copy)]
struct Items<'a> {
    block: &'a [u8],
    ghost onward: { MovesOn (past_item block.now) },
}

impl Step for Items<'_> {
    ghost answered = { λ x. past_item x.block.now };

    #[inline(always)]
    fn past(&self, at: usize) -> Result<usize, Refusal> {
        Ok(item_from(self.block, at)?.next)
    }

    ghost moves_on = { λ x. x.onward };
}

// Counts the items up to the first that cannot be had.
fn count_items(block: &[u8]) -> Counted
    ensures { result ≡ reach_in 2 fits block.now }
{
    steps::count(&Items { block }, 0)
}

// What is wrong with a block that its items do not fill.
fn damage_of(items: Counted) -> Damage
    ensures { result ≡ record { index = items.count; refusal = refusal LengthValue items.end 0 } }
{
    Damage {
        index: items.count,
        refusal: refusal::refuse(Reason::LengthValue, items.end, 0),
    }
}

// Reads a block: how many extensions there are, each of its kind; or LengthValue with the index of
// the first item that does not fit or is not of its kind. A server that took the name sends that
// extension with no data, the bytes 00 00 00 00 (RFC 6066 3), which is refused here: the hello
// itself was read, and who wants the other extensions of a ServerHello takes the index for the
// place of that one, and reads the bytes before and behind these four as blocks of their own.
pub fn parse_tls_extensions(block: &[u8]) -> Result<usize, Damage>
    ensures { extensions_says result ≡ extensions block.now }
{
    let items = count_items(block);
    if items.end == block.len() {
        Ok(items.count)
    } else {
        Err(damage_of(items))
    }
}

// How many bytes of inner length stand before the content.
pub fn inner_length(ext_type: usize) -> usize
    ensures { (n : ℕ) → result ≡ place_of (kind_of ext_type n).field 0 }
{
    match ext_type {
        registry::extension::SERVER_NAME | registry::extension::SUPPORTED_GROUPS => 2,
        _ => 0,
    }
}

// The number at a place; 0 where there are not as many bytes.
pub fn number_there(s: &[u8], at: usize, w: Width) -> usize
    ensures value { result ≡ number_there (bytes_in w) s.now at }
    ensures upper_bound { result < 256 ^ bytes_in w }
{
    wire::number::parse_be(s, at, w).map_or(0, |n| n.value)
}

// The extension of a type whose content lies there.
fn extension_of(block: &[u8], ext_type: u16, content: View) -> TlsExtension
    ensures { result ≡ extension_of block.now ext_type content }
{
    match ext_type as usize {
        registry::extension::SERVER_NAME => TlsExtension::SNI(content),
        registry::extension::MAX_FRAGMENT_LENGTH => {
            TlsExtension::MaxFragmentLength(number_there(block, content.start, Width::One) as u8)
        }
        registry::extension::SUPPORTED_GROUPS => TlsExtension::EllipticCurves(content),
        _ => TlsExtension::Unknown(ext_type, content),
    }
}

// An item as it is handed out.
fn open_item(block: &[u8], x: Tagged) -> TlsExtensionFound
    requires { (x.tag < 65536) × (place_of (kind_of x.tag x.view.len).field 0 ≤ x.view.len) × (x.view.start + x.view.len ≤ length block.now) }
    ensures { result ≡ opened block.now x }
{
    let inner = inner_length(x.tag);
    let ext_type = x.tag as u16;
    let content = View {
        start: x.view.start + inner,
        len: x.view.len - inner,
    };
    TlsExtensionFound {
        ext_type,
        content,
        next: x.next,
        extension: extension_of(block, ext_type, content),
    }
}

// The item that begins at `at` as it is handed out; NoSuch where none does.
fn open_from(block: &[u8], at: usize) -> Result<TlsExtensionFound, Refusal>
    ensures { as_answer result ≡ opened_from block.now at }
{
    Ok(open_item(block, item_from(block, at)?))
}

// The item at a place, found by walking.
fn item_at(block: &[u8], n: usize) -> Result<TlsExtensionFound, Refusal>
    ensures { as_answer result ≡ giving (opened block.now) (place n (items_of block.now)) }
{
    let from = steps::skip(&Items { block }, n)?;
    open_from(block, from)
}

// The extension at a place, counted from 0: LengthValue with the index of the first bad item, where
// the block is damaged; then NoSuch from the count on.
pub fn extension_at(block: &[u8], n: usize) -> Result<TlsExtensionFound, NotHad>
    ensures { extension_says result ≡ extension_place n block.now }
{
    parse_tls_extensions(block)?;
    item_at(block, n).map_err(NotHad::Refused)
}

// The extension that begins at `at`, with the place of the next one: a walk begins at 0, where the
// whole block is looked at, and goes on from the place handed out. LengthValue with the index at
// the front of a damaged block, so that no place of one is handed out; NoSuch past the last.
pub fn extension_from(block: &[u8], at: usize) -> Result<TlsExtensionFound, NotHad>
    ensures { extension_says result ≡ extension_from block.now at }
{
    if at == 0 {
        parse_tls_extensions(block)?;
    }
    open_from(block, at).map_err(NotHad::Refused)
}
