// BST and VST behind their choice.
ghost use Rattle.std.specs.Prelude.{length};
ghost use Rattle.apdu.specs.Values.{bst_values, vst_values};
ghost use Rattle.apdu.specs.Sound.{bst_sound, vst_sound};
ghost use Rattle.apdu_same.specs.Walk.{Compares};

use crate::entries::{applications_if, rows_of};
use crate::fields::{number_if, part_if};
use apdu::{Bst, Entry, Row, Vst};

pub(crate) fn bst(
    s: &[u8],
    a: Bst,
    list: [Entry; 32],
    table: [Row; 32],
    t: &[u8],
    b: Bst,
    other: [Entry; 32],
    others: [Row; 32],
) -> bool
    ensures { Compares (bst_sound (length s.now) a list table) (bst_sound (length t.now) b other others) (bst_values s.now a list table) (bst_values t.now b other others) result }
{
    let lead = (a.has_others == b.has_others)
        & ((a.manufacturer == b.manufacturer) & (a.individual == b.individual));
    if !lead {
        return false;
    }
    let time = a.time == b.time;
    let profile = time & (a.profile == b.profile);
    let mandatory = applications_if(
        profile,
        true,
        s,
        a.mandatory,
        list,
        table,
        0,
        t,
        b.mandatory,
        other,
        others,
        0,
        0,
    );
    let second = applications_if(
        mandatory,
        a.has_others,
        s,
        a.others,
        list,
        table,
        rows_of(list, a.mandatory as usize),
        t,
        b.others,
        other,
        others,
        rows_of(other, b.mandatory as usize),
        a.mandatory as usize,
    );
    part_if(
        second,
        true,
        s,
        a.profiles,
        a.profile_count,
        t,
        b.profiles,
        b.profile_count,
    )
}

pub(crate) fn vst(
    s: &[u8],
    a: Vst,
    list: [Entry; 32],
    table: [Row; 32],
    t: &[u8],
    b: Vst,
    other: [Entry; 32],
    others: [Row; 32],
) -> bool
    ensures { Compares (vst_sound (length s.now) a list table) (vst_sound (length t.now) b other others) (vst_values s.now a list table) (vst_values t.now b other others) result }
{
    let fill = a.fill == b.fill;
    let profile = fill & (a.profile == b.profile);
    let applications = applications_if(
        profile,
        true,
        s,
        a.applications,
        list,
        table,
        0,
        t,
        b.applications,
        other,
        others,
        0,
        0,
    );
    let class = applications & ((a.has_status == b.has_status) & (a.class == b.class));
    let maker = class & (a.maker == b.maker);
    number_if(maker, a.has_status, a.status, b.status)
}
