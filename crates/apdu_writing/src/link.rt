// BST and VST: the part before their application lists, the lists, and the part behind them.
ghost use Rattle.std.specs.Prelude.{true, false, [], ◌∷◌};
ghost use Rattle.apdu_format.specs.Component.{fixed, class, id_count};
ghost use Rattle.apdu_format.specs.Rules.{when};
ghost use Rattle.apdu_format.specs.Reading.{fields};
ghost use Rattle.apdu.specs.Values.{bit_of, if};
ghost use Rattle.apdu_writing.specs.Quill.{Puts};
ghost use Rattle.apdu_writing.specs.Applications.{Lists};
ghost use Rattle.apdu_writing.specs.Link.{bst_front, vst_front, FrontPut, LinkFrontPut, LinkTailPut, LinkPut};

use crate::component::number;
use crate::counted::ids;
use crate::entries::applications;
use crate::quill::{Quill, put};
use crate::rows::within;
use apdu::{Bst, Entry, Message, Row, Vst};

// A number of two octets.
fn word(n: u64, out: &mut [u8], c: Quill) -> Quill
    ensures { Puts true (fixed 2 ∷ []) c result out.old out.new (fields (n ∷ []) ∷ []) }
{
    put(out, 2, n, n < 65536, c)
}

fn word_if(p: bool, n: u64, out: &mut [u8], c: Quill) -> Quill
    ensures { Puts true (when p (fixed 2 ∷ [])) c result out.old out.new (if p (fields (n ∷ []) ∷ [])) }
{
    if p {
        return word(n, out, c);
    }
    c
}

// A number of four octets.
fn time(n: u64, out: &mut [u8], c: Quill) -> Quill
    ensures { Puts true (fixed 4 ∷ []) c result out.old out.new (fields (n ∷ []) ∷ []) }
{
    put(out, 4, n, n < 4294967296, c)
}

// A configuration: class, maker, and the status if it is there.
fn configuration(kind: u64, maker: u64, p: bool, status: u64, out: &mut [u8], c: Quill) -> Quill
    ensures { Puts true (class ∷ []) c result out.old out.new (fields (bit_of p ∷ kind ∷ []) ∷ fields (maker ∷ []) ∷ if p (fields (status ∷ []) ∷ [])) }
{
    let v = 32768 * u64::from(p) + kind % 32768;
    let d = put(out, 2, v, kind < 32768, c);
    let e = word(maker, out, d);
    word_if(p, status, out, e)
}

// The quill behind the part before the lists; how many entries the lists have, and whether there are two.
#[derive(Clone, Copy, Debug, PartialEq, Eq)]
pub struct LinkFront {
    pub quill: Quill,
    pub first: u64,
    pub second: u64,
    pub two: bool,
}

fn bst_front(m: Bst, out: &mut [u8], c: Quill) -> LinkFront
    ensures { FrontPut m.mandatory m.has_others m.others (id_count ∷ []) c result out.old out.new (bst_front m) }
{
    let v = 17592186044416 * 8
        + 8796093022208 * u64::from(m.has_others)
        + 134217728 * (m.manufacturer % 65536)
        + m.individual % 134217728;
    // Speed: `&` of plain tests needs no jump.
    let fine = (m.manufacturer < 65536) & (m.individual < 134217728);
    let d = put(out, 6, v, fine, c);
    let e = time(m.time, out, d);
    let quill = number(m.profile, out, e);
    LinkFront {
        quill,
        first: m.mandatory,
        second: m.others,
        two: m.has_others,
    }
}

fn vst_front(m: Vst, out: &mut [u8], c: Quill) -> LinkFront
    ensures { FrontPut m.applications false 0 (class ∷ []) c result out.old out.new (vst_front m) }
{
    let d = put(out, 1, 16 * 9 + m.fill % 16, m.fill < 16, c);
    let quill = number(m.profile, out, d);
    LinkFront {
        quill,
        first: m.applications,
        second: 0,
        two: false,
    }
}

fn link_front(m: Message, out: &mut [u8], c: Quill) -> LinkFront
    ensures { LinkFrontPut m c result out.old out.new }
{
    match m {
        Message::Bst(x) => bst_front(x, out, c),
        Message::Vst(x) => vst_front(x, out, c),
        _ => LinkFront {
            quill: c,
            first: 0,
            second: 0,
            two: false,
        },
    }
}

fn link_tail(lent: &[u8], m: Message, out: &mut [u8], c: Quill) -> Quill
    ensures { LinkTailPut lent.now m c result out.old out.new }
{
    match m {
        Message::Bst(x) => ids(lent, x.profiles, x.profile_count, out, c),
        Message::Vst(x) => configuration(x.class, x.maker, x.has_status, x.status, out, c),
        _ => c,
    }
}

// A list of n entries, and behind it, if p, one of k entries: their rows together keep the limit. The one call of `applications` is inlined: a call would copy both arrays.
fn entry_lists(
    lent: &[u8],
    list: [Entry; 32],
    n: u64,
    p: bool,
    k: u64,
    table: [Row; 32],
    out: &mut [u8],
    c: Quill,
) -> Quill
    ensures { Lists lent.now list n p k table c result out.old out.new }
{
    let mut q = c;
    let mut used: usize = 0;
    let mut from: usize = 0;
    let mut count = n;
    let mut more = p;
    loop {
        let t = applications(lent, list, from, count, table, used, out, q);
        q = t.quill;
        used = t.used;
        if !q.ok {
            return q;
        }
        if !more {
            return within(true, used, q);
        }
        from = n as usize;
        count = k;
        more = false;
    }
}

// A BST or a VST.
pub(crate) fn link_message(
    lent: &[u8],
    m: Message,
    list: [Entry; 32],
    table: [Row; 32],
    out: &mut [u8],
    c: Quill,
) -> Quill
    ensures { LinkPut lent.now m list table c result out.old out.new }
{
    let f = link_front(m, out, c);
    let q = f.quill;
    let h = entry_lists(lent, list, f.first, f.two, f.second, table, out, q);
    link_tail(lent, m, out, h)
}
